// The order of keys: by bytes, a proper prefix first.
#![tactic(auto)]

ghost use Rattle.std.specs.Prelude.{◌≡◌};
ghost use Rattle.key_order.specs.Order.{order_of};

use std::cmp::Ordering;

// How a stands to b.
#[tactic(auto, using(crate::proofs::OrderLaws::order_is))]
pub fn compare(a: &[u8], b: &[u8]) -> Ordering
    ensures { result ≡ order_of a.now b.now }
{
    a.cmp(b)
}
