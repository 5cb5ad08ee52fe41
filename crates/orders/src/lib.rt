// The two orders in which numbers of sample points are lent, point by point or column by column: how many they are, and where each stands.
#![tactic(auto)]

ghost use Rattle.std.specs.Prelude.{◌≡◌, ◌*◌, ◌≤◌, eqb};
ghost use Rattle.orders.specs.Orders as meant;

// How the numbers of points are lent: a point after the other, or a stored channel after the other.
#[derive(Clone, Copy)]
pub enum Order {
    Point,
    Column,
}

// How many numbers a sample point holds.
pub fn size(stored: [bool; 16]) -> usize
    ensures { (result ≡ meant.size stored) × (result ≤ 16) }
{
    let mut n: usize = 0;
    for is_stored in stored {
        if is_stored {
            n += 1;
        }
    }
    n
}

// Whether an amount of numbers is that of some points, of which each holds as many.
pub fn is_amount(amount: usize, count: usize, size: usize) -> bool
    ensures { result ≡ eqb amount (count * size) }
{
    if !formats::is_within(count, size, amount) {
        return false;
    }
    amount == count * size
}

// How far it is from a number to that of the next point.
pub fn step(order: Order, size: usize) -> usize
    ensures { result ≡ meant.step order size }
{
    match order {
        Order::Point => size,
        Order::Column => 1,
    }
}

// How far it is from a number to that of the next stored channel.
pub fn stride(order: Order, count: usize) -> usize
    ensures { result ≡ meant.stride order count }
{
    match order {
        Order::Point => 1,
        Order::Column => count,
    }
}
