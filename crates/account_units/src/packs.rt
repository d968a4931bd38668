// The packs that combination made, the schedule, and the packs that were dissolved on the way.

ghost use Rattle.std.specs.Prelude.{◌≡◌};
ghost use Rattle.text.specs.Puts.{Puts};
ghost use Rattle.account_units.specs.Lines.{section};
ghost use Rattle.account_units.specs.Sections.{packs_heading, schedule_heading, dissolved_heading};
ghost use Rattle.account_units.specs.InTables.{pack_line, pack_lines_in, schedule_lines_in, among_from, dissolved_line, dissolved_lines_in};

// The pack that goes by s, where there is one.
#[tactic(auto, using(text::proofs::Putting::nothing))]
fn put_pack(out: &mut [u8], at: usize, table: &[u64], waiting: u64, s: usize) -> usize
    ensures { Puts (pack_line table.now waiting s) out.old at out.new result }
{
    if rows::has(waiting, s) {
        let unit = units::unit_at(table, s);
        if unit.count > 1 {
            return crate::numbers::put_unit(out, at, unit);
        }
    }
    at
}

fn put_pack_lines(out: &mut [u8], at: usize, table: &[u64], waiting: u64) -> usize
    ensures { Puts (pack_lines_in table.now waiting) out.old at out.new result }
{
    let mut behind = at;
    for s in 0..64 {
        behind = put_pack(out, behind, table, waiting, s);
    }
    behind
}

pub fn put_packs(out: &mut [u8], at: usize, table: &[u64], waiting: u64) -> usize
    ensures { Puts (section packs_heading (pack_lines_in table.now waiting)) out.old at out.new result }
{
    crate::numbers::put_section(
        out,
        at,
        b"Packs:\n",
        |out, start| put_pack_lines(out, start, table, waiting),
    )
}

fn put_schedule_lines(out: &mut [u8], at: usize, scheduled: &[u64], count: usize) -> usize
    ensures { Puts (schedule_lines_in scheduled.now count) out.old at out.new result }
{
    let mut behind = at;
    for i in 0..count {
        let unit = units::unit_at(scheduled, i);
        behind = crate::numbers::put_unit(out, behind, unit);
    }
    behind
}

pub fn put_schedule(out: &mut [u8], at: usize, scheduled: &[u64], count: usize) -> usize
    ensures { Puts (section schedule_heading (schedule_lines_in scheduled.now count)) out.old at out.new result }
{
    crate::numbers::put_section(
        out,
        at,
        b"Schedule:\n",
        |out, start| put_schedule_lines(out, start, scheduled, count),
    )
}

// The unit with this word is in the schedule.
fn is_scheduled(scheduled: &[u64], count: usize, word: u64) -> bool
    ensures { result ≡ among_from count 0 scheduled.now word }
{
    (0..count).any(|i| slices::at_or(scheduled, i, 0) == word)
}

// The pack that goes by s, where there is one and it is not in the schedule.
#[tactic(auto, using(text::proofs::Putting::nothing))]
fn put_dissolved_at(
    out: &mut [u8],
    at: usize,
    table: &[u64],
    waiting: u64,
    scheduled: &[u64],
    count: usize,
    s: usize,
) -> usize
    ensures { Puts (dissolved_line table.now waiting scheduled.now count s) out.old at out.new result }
{
    if is_scheduled(scheduled, count, slices::at_or(table, s, 0)) {
        return at;
    }
    put_pack(out, at, table, waiting, s)
}

fn put_dissolved_lines(
    out: &mut [u8],
    at: usize,
    table: &[u64],
    waiting: u64,
    scheduled: &[u64],
    count: usize,
) -> usize
    ensures { Puts (dissolved_lines_in table.now waiting scheduled.now count) out.old at out.new result }
{
    let mut behind = at;
    for s in 0..64 {
        behind = put_dissolved_at(out, behind, table, waiting, scheduled, count, s);
    }
    behind
}

pub fn put_dissolved(
    out: &mut [u8],
    at: usize,
    table: &[u64],
    waiting: u64,
    scheduled: &[u64],
    count: usize,
) -> usize
    ensures { Puts (section dissolved_heading (dissolved_lines_in table.now waiting scheduled.now count)) out.old at out.new result }
{
    crate::numbers::put_section(
        out,
        at,
        b"Dissolved packs:\n",
        |out, start| put_dissolved_lines(out, start, table, waiting, scheduled, count),
    )
}
