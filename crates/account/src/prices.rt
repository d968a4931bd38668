// What is told of the prices: the choice, and the sums at the end.

ghost use Rattle.text.specs.Puts.{Puts};
ghost use Rattle.account.specs.Prices.{verdict, choice_line, sums_line};

fn put_verdict(out: &mut [u8], at: usize, block: u64, packed: u64) -> usize
    ensures { Puts (verdict block packed) out.old at out.new result }
{
    if packed < block {
        return text::put_words(out, at, b"The packed list is the answer.\n");
    }
    text::put_words(
        out,
        at,
        b"The packed list is not below, so the answer is S for every statement.\n",
    )
}

pub fn put_choice(out: &mut [u8], at: usize, block: u64, packed: u64) -> usize
    ensures { Puts (choice_line block packed) out.old at out.new result }
{
    let behind_words = text::put_words(out, at, b"The block costs ");
    let behind_block = text::put_decimal(out, behind_words, block);
    let behind_comma = text::put_words(out, behind_block, b", the packed list ");
    let behind_packed = text::put_decimal(out, behind_comma, packed);
    let behind_dot = text::put_words(out, behind_packed, b". ");
    put_verdict(out, behind_dot, block, packed)
}

pub fn put_sums(out: &mut [u8], at: usize, block: u64, list: u64) -> usize
    ensures { Puts (sums_line block list) out.old at out.new result }
{
    let behind_words = text::put_words(out, at, b"Sums: the block costs ");
    let behind_block = text::put_decimal(out, behind_words, block);
    let behind_comma = text::put_words(out, behind_block, b", the list ");
    let behind_list = text::put_decimal(out, behind_comma, list);
    text::put_words(out, behind_list, b".\n")
}
