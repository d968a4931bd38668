// Input that is refused: the number, what is wrong, and where the numbers are listed.

ghost use Rattle.text.specs.Puts.{Puts};
ghost use Rattle.comparison.specs.Compared.{wrong_size, too_long, refusal_text};

pub fn put_too_long(out: &mut [u8]) -> usize
    ensures { Puts too_long out.old 0 out.new result }
{
    text::put_words(
        out,
        0,
        b"refused with 6: The input has over 9303 bytes, which no block has with its variables and cells.\nThe numbers are listed in docs/PROMISES.md under \"Numbers returned\".\n",
    )
}

pub fn put_wrong_size(out: &mut [u8], given: usize, needed: usize) -> usize
    ensures { Puts (wrong_size given needed) out.old 0 out.new result }
{
    let behind_number = text::put_words(out, 0, b"refused with 6: ");
    let behind_given = text::put_decimal(out, behind_number, given as u64);
    let behind_words = text::put_words(
        out,
        behind_given,
        b" bytes follow the block, and its variables and cells take ",
    );
    let behind_needed = text::put_decimal(out, behind_words, needed as u64);
    text::put_words(
        out,
        behind_needed,
        b".\nThe numbers are listed in docs/PROMISES.md under \"Numbers returned\".\n",
    )
}

// No input at all also has how the program is used. The clause answers for every number, hence no Refusal.
pub fn put_refusal(out: &mut [u8], number: u8, given: usize) -> usize
    ensures { Puts (refusal_text number given) out.old 0 out.new result }
{
    let behind = answers::put_refusal(out, 0, number);
    if given == 0 {
        return text::put_words(
            out,
            behind,
            b"usage: compare < FILE\nFILE has the bytes of one block, then each variable and each cell as four bytes, big-endian.\n",
        );
    }
    behind
}
