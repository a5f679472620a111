// R-9's comparison of two tables of a unit: equal blocks, one finer than the other, or neither; or the refusals of the
// way back, 1 to 10, then 15, 27, 28 and 16 of the first table, then of the second.
#![tactic(auto)]

mod finer;
mod tables;

ghost use Rattle.std.specs.Prelude.{◌≡◌};
ghost use Rattle.refusals.specs.Said.{said};
ghost use Rattle.tree.specs.Kind.{luma};
ghost use Rattle.compare.specs.Compare.{compare_rows, compare_unit};
ghost use Rattle.compare.specs.Tests.{Tabled, Passes};

pub use finer::Finer;
use settings::Settings;
use unit::Answer;
use walks::Root;

// The comparison with a second table, where the first is that of a tree.
#[tactic(auto, using(crate::proofs::Calls::second_refused, crate::proofs::Calls::both_accepted, crate::proofs::Calls::both_comparable, crate::proofs::Equal::turned))]
fn after_first(root: Root, first: &[u8], second: &[u8]) -> Answer
    requires { Tabled (luma root.limits) root.node × Passes (luma root.limits) root.node first.now }
    ensures { said result ≡ compare_rows (luma root.limits) root.node first.now second.now }
{
    writer::test_table(root.limits, root.node, second)?;
    let finer = tables::finer_or_equal(first, second);
    let coarser = tables::finer_or_equal(second, first);
    Ok(finer::compared(finer, coarser).number())
}

// The comparison of two tables, by the root of their unit. Where they are the same, one test is enough.
#[tactic(auto, using(crate::proofs::Calls::first_refused, crate::proofs::Calls::same_equal))]
fn compare_rows(root: Root, first: &[u8], second: &[u8]) -> Answer
    requires { Tabled (luma root.limits) root.node }
    ensures { said result ≡ compare_rows (luma root.limits) root.node first.now second.now }
{
    writer::test_table(root.limits, root.node, first)?;
    if first == second {
        return Ok(Finer::Equal.number());
    }
    after_first(root, first, second)
}

// Compares two tables of the unit at an address: answers the number of the comparison, 0 to 3, or a refusal.
#[tactic(auto, using(crate::proofs::Calls::none_compared, crate::proofs::Calls::there_compared))]
pub fn compare_unit(s: Settings, address: usize, first: &[u8], second: &[u8]) -> Answer
    ensures { said result ≡ compare_unit s address first.now second.now }
{
    let q = settings::unit_at(s, address)?;
    compare_rows(Root::of(s, q), first, second)
}
