// "Schedule": the order of the units, and which packs are dissolved on the way.

#![tactic(auto)]

ghost use Rattle.std.specs.Prelude.{◌≡◌, ℕ, Bool, ◌+◌, ◌≤◌, ◌<◌, get_or, set as replaced};
ghost use Rattle.basics.specs.Sets.{join};
ghost use Rattle.units.specs.Lanes.{lanes_word, word_lanes, member_lane, member_lanes};
ghost use Rattle.schedule.specs.Stages.{stage_of, word_ready, ready_at, pack_at, IsLowest, Decides, without_one, written, single_word, single_need, in_lanes, with_single, stepped, scheduled_tables};

// The units that wait, by lowest number, the statements that are scheduled, and how many units are.
#[derive(Clone, Copy)]
pub struct Progress {
    pub waiting: u64,
    pub scheduled: u64,
    pub count: usize,
}

// "It is ready when all that its statements depend on is scheduled."
fn is_ready(needed: u64, scheduled: u64) -> bool
    ensures { result ≡ word_ready needed scheduled }
{
    needed & scheduled == needed
}

// The lowest of a set that passes a test.
fn lowest<F: Fn(usize) -> bool>(set: u64, passes: F) -> Option<usize>
    requires { F.IsAlwaysCallable passes }
    ensures { (test : ℕ → Bool) → Decides (F.post passes) test → IsLowest test set result }
{
    let mut rest = set;
    while rest != 0 {
        let at = rows::first(rest);
        if passes(at) {
            return Some(at);
        }
        rest = rows::behind_first(rest);
    }
    None
}

fn lowest_ready(needs: &[u64], waiting: u64, scheduled: u64) -> Option<usize>
    ensures { IsLowest (ready_at needs.now scheduled) waiting result }
{
    lowest(
        waiting,
        |at| is_ready(slices::at_or(needs, at, 0), scheduled),
    )
}

fn lowest_pack(units: &[u64], waiting: u64) -> Option<usize>
    ensures { IsLowest (pack_at units.now) waiting result }
{
    lowest(waiting, |at| units::unit_at(units, at).count > 1)
}

fn without(set: u64, i: usize) -> u64
    requires { i < 64 }
    ensures { result ≡ without_one set i }
{
    if rows::has(set, i) {
        set ^ rows::only(i)
    } else {
        set
    }
}

fn take(units: &[u64], order: &mut [u64], progress: Progress, at: usize) -> Progress
    requires { (at < 64) × (progress.count < 128) }
    ensures { (order.new ≡ replaced order.old progress.count (lanes_word (word_lanes (get_or units.now at 0))))
        × ((result.waiting ≡ without_one progress.waiting at)
        × ((result.scheduled ≡ join progress.scheduled (member_lanes (word_lanes (get_or units.now at 0))))
        × (result.count ≡ progress.count + 1))) }
{
    let unit = units::unit_at(units, at);
    units::set_unit(order, progress.count, unit);
    Progress {
        waiting: without(progress.waiting, at),
        scheduled: progress.scheduled | units::members(unit),
        count: progress.count + 1,
    }
}

fn wait_single(direct: &[u64], units: &mut [u64], needs: &mut [u64], lane: u8) -> u64
    ensures { (units.new ≡ written single_word lane units.old)
        × ((needs.new ≡ written (single_need direct.now) lane needs.old)
        × (result ≡ member_lane lane)) }
{
    if lane < 64 {
        return units::wait(direct, units, needs, units::single(usize::from(lane)));
    }
    0
}

fn dissolve(
    direct: &[u64],
    units: &mut [u64],
    needs: &mut [u64],
    progress: Progress,
    at: usize,
) -> Progress
    ensures { (units.new ≡ in_lanes (written single_word) (get_or units.old at 0) units.old)
        × ((needs.new ≡ in_lanes (written (single_need direct.now)) (get_or units.old at 0) needs.old)
        × ((result.waiting ≡ in_lanes with_single (get_or units.old at 0) progress.waiting)
        × ((result.scheduled ≡ progress.scheduled)
        × (result.count ≡ progress.count)))) }
{
    let unit = units::unit_at(units, at);
    let mut waiting = progress.waiting;
    for lane in unit.lanes {
        waiting |= wait_single(direct, units, needs, lane);
    }
    Progress {
        waiting,
        ..progress
    }
}

// "Take the ready unit with the lowest statement number. If none is ready, dissolve the waiting pack
// with the lowest statement number into singles."
#[tactic(auto, unfolding(crate::specs::Stages::stepped))]
fn step(
    direct: &[u64],
    units: &mut [u64],
    needs: &mut [u64],
    order: &mut [u64],
    progress: Progress,
) -> Progress
    requires { progress.count < 128 }
    ensures { stage_of units.new needs.new order.new result
        ≡ stepped direct.now (stage_of units.old needs.old order.old progress) }
{
    if let Some(at) = lowest_ready(needs, progress.waiting, progress.scheduled) {
        return take(units, order, progress, at);
    }
    if let Some(at) = lowest_pack(units, progress.waiting) {
        return dissolve(direct, units, needs, progress, at);
    }
    progress
}

// The scheduled units stand in `order`, and back comes how many they are.
pub fn schedule(
    n: usize,
    direct: &[u64],
    units: &mut [u64],
    needs: &mut [u64],
    waiting: u64,
    order: &mut [u64],
) -> usize
    requires { n ≤ 64 }
    ensures { (order.new ≡ (scheduled_tables n direct.now units.old needs.old waiting order.old).order)
        × (result ≡ (scheduled_tables n direct.now units.old needs.old waiting order.old).size) }
{
    let mut progress = Progress {
        waiting,
        scheduled: 0,
        count: 0,
    };
    for _ in 0..n + n {
        if progress.waiting == 0 {
            break;
        }
        progress = step(direct, units, needs, order, progress);
    }
    progress.count
}
