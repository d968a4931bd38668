// The sentence of standard error: what is wrong with the input, in plain words.

ghost use Rattle.std.specs.Prelude.{◌≡◌, ◌≤◌, length, take};
ghost use Rattle.text.specs.Puts.{Puts};
ghost use Rattle.answers.specs.Sentences.{sentence, refusal, complaint};

// Nothing for a number that making a list does not return: the clause answers for every number, and so do those below,
// hence a number and no Refusal.
#[tactic(auto, using(text::proofs::Putting::nothing), unfolding(crate::specs::Sentences::sentence))]
pub fn put_sentence(out: &mut [u8], at: usize, number: u8) -> usize
    ensures { Puts (sentence number) out.old at out.new result }
{
    match number {
        1 => text::put_words(
            out,
            at,
            b"The first byte of the block, its version, is not 1.\n",
        ),
        2 => text::put_words(
            out,
            at,
            b"The block has under 7 bytes, or states a length that is not the number of bytes given.\n",
        ),
        3 => text::put_words(
            out,
            at,
            b"A count or an array's length is over its limit, an array has no cells, or more variables are live out than there are.\n",
        ),
        4 => text::put_words(
            out,
            at,
            b"The bytes end early or some are left over, or in a record the length, the operation, a kind or the number of operands is wrong, or the destination is a constant.\n",
        ),
        5 => text::put_words(
            out,
            at,
            b"A statement names a variable, an array or an index that the block does not declare.\n",
        ),
        7 => text::put_words(
            out,
            at,
            b"The list takes more bytes than there is room for.\n",
        ),
        _ => at,
    }
}

// A refusal on standard output, for the programs whose text is for people: the number, what is wrong, and
// where the numbers are listed.
pub fn put_refusal(out: &mut [u8], at: usize, number: u8) -> usize
    ensures { Puts (refusal number) out.old at out.new result }
{
    let behind_words = text::put_words(out, at, b"refused with ");
    let behind_number = text::put_decimal(out, behind_words, u64::from(number));
    let behind_colon = text::put_words(out, behind_number, b": ");
    let behind_sentence = put_sentence(out, behind_colon, number);
    text::put_words(
        out,
        behind_sentence,
        b"The numbers are listed in docs/PROMISES.md under \"Numbers returned\".\n",
    )
}

// The sentence, and for no input at all how the program is used.
pub fn put_complaint(out: &mut [u8], number: u8, given: usize) -> usize
    requires { 300 ≤ length out.old }
    ensures puts { Puts (complaint number given) out.old 0 out.new result }
    ensures text { take result out.new ≡ complaint number given }
    ensures within { result ≤ length out.new }
{
    if given > 4096 {
        return text::put_words(
            out,
            0,
            b"The input has over 4096 bytes, which no block has.\n",
        );
    }
    let behind = put_sentence(out, 0, number);
    if given == 0 {
        return text::put_words(
            out,
            behind,
            b"usage: list < BLOCK\nBLOCK is a file with the bytes of one block; the list that is made for it is printed in hexadecimal.\n",
        );
    }
    behind
}
