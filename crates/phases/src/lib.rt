// The phases in front of emission: the tables of a block, then seed, extend, combine and schedule.

#![tactic(auto)]

ghost use Rattle.std.specs.Prelude.{◌≡◌, ◌≤◌, true, length, replicate};
ghost use Rattle.basics.specs.Lists.{all};
ghost use Rattle.meaning.specs.Choice.{scheduled_units};
ghost use Rattle.codes.specs.Fitting.{statement_fits};
ghost use Rattle.facts.specs.Filled.{no_tables};
ghost use Rattle.units.specs.Words.{InOrder};
ghost use Rattle.pairs.specs.Admission.{admitted_tables, empty, seeded_tables};
ghost use Rattle.estimate.specs.Costs.{priced};
ghost use Rattle.extend.specs.Visits.{visit_tables_from};
ghost use Rattle.phases.specs.Prepared.{TablesPrepared};
ghost use Rattle.phases.specs.Ordered.{Ordered};

use facts::Tables;
use meaning::Statement;
use pairs::Admitted;

// What the phases ask of the statements, worked out once: places by number, the statements that name
// each, last definitions and readers.
#[tactic(auto, using(crate::proofs::Filled::filled_prepared))]
pub fn fill_tables(statements: &[Statement], tables: &mut Tables)
    requires few { length statements.now ≤ 64 }
    requires fit { all statement_fits statements.now ≡ true }
    requires empty { tables.old ≡ no_tables }
    ensures { TablesPrepared statements.now tables.new }
{
    let n = statements.len();
    tables.fill_facts(statements);
    tables.fill_places(n);
    reach::fill_definitions(tables, n);
    reach::fill_readers(tables, n);
}

// "Seeding", then "Extension": the admitted pairs.
pub fn pair_up(statements: &[Statement], tables: &Tables, reached: [u64; 64]) -> Admitted
    requires few { length statements.now ≤ 64 }
    requires known_prices { priced tables.now.facts }
    ensures { admitted_tables result
        ≡ visit_tables_from (length statements.now) tables.now.facts reached 0
        (seeded_tables statements.now (length statements.now) tables.now.facts reached
        tables.now.numbers tables.now.writers tables.now.lefts tables.now.rights empty) }
{
    let mut admitted = pairs::seed(statements, tables, reached);
    extend::extend(statements.len(), tables, reached, &mut admitted);
    admitted
}

// "Combination", then "Schedule": the units in order.
#[tactic(auto, using(crate::proofs::Ordering::ordered_by))]
pub fn order_units(
    n: usize,
    reached: [u64; 64],
    direct: &[u64],
    admitted: &Admitted,
    scheduled: &mut [u64],
) -> usize
    requires { n ≤ 64 }
    ensures { Ordered n reached direct.now admitted.now.next admitted.now.rights scheduled.old scheduled.new result }
{
    let mut waiting = [0u64; 64];
    let mut needs = [0u64; 64];
    let all = combine::combine(
        n,
        reached,
        direct,
        &admitted.next,
        admitted.rights,
        &mut waiting,
        &mut needs,
    );
    schedule::schedule(n, direct, &mut waiting, &mut needs, all, scheduled)
}

// The units of a block in scheduled order.
#[tactic(auto, using(crate::proofs::Scheduled::tables_priced))]
pub fn schedule_units(statements: &[Statement], tables: &Tables, scheduled: &mut [u64]) -> usize
    requires prepared { TablesPrepared statements.now tables.now }
    requires fresh { scheduled.old ≡ replicate 64 0 }
    ensures { InOrder (scheduled_units statements.now) scheduled.new result }
{
    let n = statements.len();
    let direct = reach::dependences(statements, tables);
    let reached = reach::reachability(&direct, n);
    let admitted = pair_up(statements, tables, reached);
    order_units(n, reached, &direct, &admitted, scheduled)
}
