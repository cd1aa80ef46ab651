//! Which copies are alike, so that their lines are.
ghost use Rattle.std.specs.Prelude.{◌≡◌, ◌≤◌, None, IsTrue, All, length, take};
ghost use Rattle.mq_world.specs.Views.{copy_of};
ghost use Rattle.mq_jsonl.specs.Behind.{IsAlike};
ghost use Rattle.mq_jsonl.specs.Shared.{SameButClient, SameButMessage};

use mq_world::Delivery;

// To find what the lines of several messages share takes as long as to print one or two of them.
const FEW: usize = 3;

/// Whether two copies, of which none is for a group, differ in their texts alone.
pub fn is_alike(before: &Delivery, delivery: &Delivery) -> bool
    ensures alike { IsTrue result → IsAlike (copy_of before.now) (copy_of delivery.now) }
    ensures alone { IsTrue result → (copy_of before.now).group ≡ None }
{
    before.group.is_none()
        && delivery.group.is_none()
        && before.qos == delivery.qos
        && before.retain == delivery.retain
        && before.expiry == delivery.expiry
        && before.ids == delivery.ids
}

fn same_but_client(first: &Delivery, other: &Delivery) -> bool
    ensures { IsTrue result → SameButClient (copy_of first.now) (copy_of other.now) }
{
    is_alike(first, other) && first.topic == other.topic && first.payload == other.payload
}

fn same_but_message(first: &Delivery, other: &Delivery) -> bool
    ensures { IsTrue result → SameButMessage (copy_of first.now) (copy_of other.now) }
{
    is_alike(first, other) && first.client == other.client
}

/// How many of these, up to one that is otherwise, differ from the first one in their clients
/// alone.
pub fn count_clients(first: &Delivery, others: &[Delivery]) -> usize
    ensures bound { result ≤ length others.now }
    ensures same { All (λ d. SameButClient (copy_of first.now) (copy_of d))
        (take result others.now) }
{
    for (count, other) in others.iter().enumerate() {
        if !same_but_client(first, other) {
            return count;
        }
    }
    others.len()
}

// How many of these, up to one that is otherwise, differ from the first one in topic and payload
// alone.
fn messages_in_turn(first: &Delivery, others: &[Delivery]) -> usize
    ensures bound { result ≤ length others.now }
    ensures same { All (λ d. SameButMessage (copy_of first.now) (copy_of d))
        (take result others.now) }
{
    for (count, other) in others.iter().enumerate() {
        if !same_but_message(first, other) {
            return count;
        }
    }
    others.len()
}

/// How many of these, up to one that is otherwise, differ from the first one in topic and payload
/// alone. For so few that their whole lines take less time it says that none do.
pub fn count_messages(first: &Delivery, others: &[Delivery]) -> usize
    ensures bound { result ≤ length others.now }
    ensures same { All (λ d. SameButMessage (copy_of first.now) (copy_of d))
        (take result others.now) }
{
    let count = messages_in_turn(first, others);
    if count < FEW { 0 } else { count }
}
