// "Extension": from admitted pairs to those that define what they read, and to those that read what
// they define.

#![tactic(auto)]

ghost use Rattle.std.specs.Prelude.{◌≡◌, ◌+◌, ◌≤◌, ◌<◌};
ghost use Rattle.meaning.specs.Pairs.{pair};
ghost use Rattle.pairs.specs.Admission.{admitted_tables};
ghost use Rattle.estimate.specs.Costs.{priced};
ghost use Rattle.extend.specs.Visits.{InBlock, admit_paying, admit_definitions, greater_of, better_of, best_of_partners, best_of, admit_readers, visit_tables, visit_tables_from};

use facts::Tables;
use pairs::{Admitted, Pair};

// "admit them if they may be and the estimate is 0 or more"
fn admit_if_pays(tables: &Tables, reached: &[u64], admitted: &mut Admitted, p: Pair)
    requires room { admitted.old.count ≤ 1000 }
    requires first { p.left < 64 }
    requires second { p.right < 64 }
    requires known_prices { priced tables.now.facts }
    ensures paying { admitted_tables admitted.new
        ≡ admit_paying tables.now.facts reached.now (pair p.left p.right) (admitted_tables admitted.old) }
    ensures counted { admitted.new.count ≤ admitted.old.count + 1 }
{
    if admitted.may_admit(tables, reached, p.left, p.right)
        && estimate::loss(tables, admitted, p) <= estimate::gain(tables, p)
    {
        admitted.admit(p.left, p.right);
    }
}

// "where both operands are variables and each has a definition in the block before its reader, take
// the last such definitions"
fn use_to_definition(
    tables: &Tables,
    reached: &[u64],
    admitted: &mut Admitted,
    definition: usize,
    p: Pair,
)
    requires room { admitted.old.count ≤ 1000 }
    requires column { definition ≤ 448 }
    requires known_prices { priced tables.now.facts }
    ensures definitions { admitted_tables admitted.new
        ≡ admit_definitions tables.now.facts reached.now definition (pair p.left p.right) (admitted_tables admitted.old) }
    ensures counted { admitted.new.count ≤ admitted.old.count + 1 }
{
    let left = tables.fact(definition, p.left) as usize;
    let right = tables.fact(definition, p.right) as usize;
    if left < rows::NONE && right < rows::NONE {
        admit_if_pays(tables, reached, admitted, Pair { left, right });
    }
}

// The best readers so far.
#[derive(Clone, Copy)]
struct Best {
    left: usize,
    right: usize,
    estimate: u64,
}

// "the first with the greatest estimate"
fn greater(best: Option<Best>, p: Pair, estimate: u64) -> Option<Best>
    requires first { p.left < 64 }
    requires second { p.right < 64 }
    requires in_block { InBlock best }
    ensures greater { result ≡ greater_of (pair p.left p.right) estimate best }
    ensures in_block { InBlock result }
{
    match best {
        Some(other) if estimate <= other.estimate => best,
        _ => Some(Best {
            left: p.left,
            right: p.right,
            estimate,
        }),
    }
}

// "among those that may be admitted, if it is 0 or more"
fn better(
    tables: &Tables,
    reached: &[u64],
    admitted: &Admitted,
    best: Option<Best>,
    p: Pair,
) -> Option<Best>
    requires first { p.left < 64 }
    requires second { p.right < 64 }
    requires in_block { InBlock best }
    requires known_prices { priced tables.now.facts }
    ensures better { result ≡ better_of tables.now.facts reached.now (admitted_tables admitted.now) (pair p.left p.right) best }
    ensures in_block { InBlock result }
{
    if admitted.may_admit(tables, reached, p.left, p.right) {
        let lost = estimate::loss(tables, admitted, p);
        let gained = estimate::gain(tables, p);
        if lost <= gained {
            return greater(best, p, gained - lost);
        }
    }
    best
}

fn best_with(
    tables: &Tables,
    reached: &[u64],
    admitted: &Admitted,
    before: Option<Best>,
    t: usize,
    partners: u64,
) -> Option<Best>
    requires reader { t < 64 }
    requires in_block { InBlock before }
    requires known_prices { priced tables.now.facts }
    ensures best { result ≡ best_of_partners tables.now.facts reached.now (admitted_tables admitted.now) t partners before }
    ensures in_block { InBlock result }
{
    let mut best = before;
    let mut rest = partners;
    while rest != 0 {
        best = better(
            tables,
            reached,
            admitted,
            best,
            Pair {
                left: t,
                right: rows::first(rest),
            },
        );
        rest = rows::behind_first(rest);
    }
    best
}

// "among all t reading s's result and t' reading its partner's result, t then t' ascending"
fn best_readers(tables: &Tables, reached: &[u64], admitted: &Admitted, p: Pair) -> Option<Best>
    requires { priced tables.now.facts }
    ensures best { result ≡ best_of tables.now.facts reached.now (admitted_tables admitted.now) (pair p.left p.right) }
    ensures in_block { InBlock result }
{
    let partners = tables.fact(facts::READERS, p.right);
    let mut best = None;
    let mut rest = tables.fact(facts::READERS, p.left);
    while rest != 0 {
        best = best_with(tables, reached, admitted, best, rows::first(rest), partners);
        rest = rows::behind_first(rest);
    }
    best
}

// Only variables have readers, so that both destinations are variables need not be asked.
fn definition_to_use(tables: &Tables, reached: &[u64], admitted: &mut Admitted, p: Pair)
    requires room { admitted.old.count ≤ 1000 }
    requires known_prices { priced tables.now.facts }
    ensures readers { admitted_tables admitted.new
        ≡ admit_readers tables.now.facts reached.now (pair p.left p.right) (admitted_tables admitted.old) }
    ensures counted { admitted.new.count ≤ admitted.old.count + 1 }
{
    if let Some(best) = best_readers(tables, reached, admitted, p) {
        admitted.admit(best.left, best.right);
    }
}

// "First use to definition, left position then right. .. Then definition to use." Each sees what the
// earlier ones admitted.
#[tactic(auto, unfolding(crate::specs::Visits::visit_tables))]
fn visit(tables: &Tables, reached: &[u64], admitted: &mut Admitted, p: Pair)
    requires room { admitted.old.count ≤ 500 }
    requires known_prices { priced tables.now.facts }
    ensures visited { admitted_tables admitted.new
        ≡ visit_tables tables.now.facts reached.now (pair p.left p.right) (admitted_tables admitted.old) }
    ensures counted { admitted.new.count ≤ admitted.old.count + 3 }
{
    use_to_definition(tables, reached, admitted, facts::LEFT_DEFINITION, p);
    use_to_definition(tables, reached, admitted, facts::RIGHT_DEFINITION, p);
    definition_to_use(tables, reached, admitted, p);
}

// "Each pair is visited once, in order of admission, added pairs at the end."
pub fn extend(n: usize, tables: &Tables, reached: [u64; 64], admitted: &mut Admitted)
    requires visits { n ≤ 64 }
    requires seeded { admitted.old.count ≤ 64 }
    requires known_prices { priced tables.now.facts }
    ensures extended { admitted_tables admitted.new
        ≡ visit_tables_from n tables.now.facts reached 0 (admitted_tables admitted.old) }
    ensures counted { admitted.new.count ≤ 256 }
{
    for i in 0..n {
        if admitted.count <= i {
            break;
        }
        let left = rows::number_at(&admitted.order, i);
        let right = rows::number_at(&admitted.next, left);
        visit(tables, &reached, admitted, Pair { left, right });
    }
}
