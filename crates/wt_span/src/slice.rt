ghost use Rattle.std.specs.Prelude.{◌≡◌, ◌≤◌, length, take, drop};

/// The members from the place `at` on. (Contracts see it as `drop`, where `&items[at..]` shows as
/// a `take` of a `drop`.)
pub fn rest_of<T>(items: &[T], at: usize) -> &[T]
    requires { at ≤ length items.now }
    ensures { result.now ≡ drop at items.now }
{
    &items[at..]
}

/// The first `count` members.
pub fn front_of<T>(items: &[T], count: usize) -> &[T]
    requires { count ≤ length items.now }
    ensures { result.now ≡ take count items.now }
{
    &items[..count]
}
