// Rectangles and windows: the least rectangle over an object's pairs, and whether a rectangle meets a window.
#![tactic(auto)]

ghost use Rattle.std.specs.Prelude.{◌≡◌, ◌+◌, ◌-◌, ◌*◌, ◌≤◌, ◌<◌, length};
ghost use Rattle.numbers.specs.Coordinates.{unmarked};
ghost use Rattle.records.specs.Sizes.{object_header_size, pair_size, window_size};
ghost use Rattle.windows.specs.Rectangles.{x_of, y_of, lesser_of, greater_of, point_at, joined, without_marks, rectangle_of};
ghost use Rattle.windows.specs.Windows.{window_of, rectangle_at, window_good, meets_window};

use numbers::{i32_at, signed_at_most, signed32_of, u32_at, without_marks};
use slots::ObjectHeader;

// A rectangle of raw coordinates.
#[derive(Clone, Copy, Debug, PartialEq, Eq)]
pub struct Rectangle {
    pub left: u32,
    pub bottom: u32,
    pub right: u32,
    pub top: u32,
}

// The one of two raw coordinates that is less by value. Both are without marks, so the signed order is the order by value.
fn lesser(a: u32, b: u32) -> u32
    requires { (unmarked a ≡ a) × (unmarked b ≡ b) }
    ensures { result ≡ lesser_of a b }
{
    if signed_at_most(a, b) { a } else { b }
}

// The one of two that is greater by value, likewise. Two functions, as `min` and `max` are: each asks the order the other way round.
fn greater(a: u32, b: u32) -> u32
    requires { (unmarked a ≡ a) × (unmarked b ≡ b) }
    ensures { result ≡ greater_of a b }
{
    if signed_at_most(b, a) { a } else { b }
}

impl Rectangle {
    // The rectangle of one point.
    pub fn point(x: u32, y: u32) -> Rectangle
        ensures { result ≡ point_at x y }
    {
        Rectangle {
            left: x,
            bottom: y,
            right: x,
            top: y,
        }
    }

    // The rectangle of the slot that stands from a place on, in every version.
    pub fn at(m: &[u8], at: usize) -> Rectangle
        requires { at + 16 ≤ length m.now }
        ensures { result ≡ rectangle_at m.now at }
    {
        Rectangle {
            left: u32_at(m, at),
            bottom: u32_at(m, at + 4),
            right: u32_at(m, at + 8),
            top: u32_at(m, at + 12),
        }
    }

    // The rectangle and a point more, both without marks.
    pub fn join(self, x: u32, y: u32) -> Rectangle
        requires { (without_marks self ≡ self) × (unmarked x ≡ x) × (unmarked y ≡ y) }
        ensures { result ≡ joined self x y }
    {
        Rectangle {
            left: lesser(self.left, x),
            bottom: lesser(self.bottom, y),
            right: greater(self.right, x),
            top: greater(self.top, y),
        }
    }
}

// The raw coordinates of pair i of the object that starts a part, without their marks.
#[tactic(auto, unfolding(crate::specs::Rectangles::x_of, crate::specs::Rectangles::y_of))]
fn pair(part: &[u8], i: usize) -> (u32, u32)
    requires { (i ≤ 65535) × (object_header_size + pair_size * i + pair_size ≤ length part.now) }
    ensures x { result.0 ≡ unmarked (x_of part.now i) }
    ensures y { result.1 ≡ unmarked (y_of part.now i) }
{
    let at = ObjectHeader::SIZE + ObjectHeader::PAIR * i;
    (
        without_marks(u32_at(part, at)),
        without_marks(u32_at(part, at + 4)),
    )
}

// The least rectangle over the first pairs of the object that starts a part. The marks are dropped first: then each side is a signed least or greatest.
pub fn least_rectangle(part: &[u8], items: usize) -> Rectangle
    requires { (1 ≤ items) × (items ≤ 65535) × (object_header_size + pair_size * items ≤ length part.now) }
    ensures { result ≡ rectangle_of part.now items }
{
    let (x, y) = pair(part, 0);
    let mut cover = Rectangle::point(x, y);
    for i in 1..items {
        let (x, y) = pair(part, i);
        cover = cover.join(x, y);
    }
    cover
}

// A window, in 0.01 mm.
#[derive(Clone, Copy, Debug, PartialEq, Eq)]
pub struct Window {
    pub left: i32,
    pub bottom: i32,
    pub right: i32,
    pub top: i32,
}

impl Window {
    // Four numbers, in a program's input.
    pub const SIZE: usize = 16;

    // The window that starts a part.
    pub fn of(part: &[u8]) -> Window
        requires { window_size ≤ length part.now }
        ensures { result ≡ window_of part.now }
    {
        Window {
            left: i32_at(part, 0),
            bottom: i32_at(part, 4),
            right: i32_at(part, 8),
            top: i32_at(part, 12),
        }
    }
}

// Whether left is at most right and bottom at most top.
pub fn window_good(w: Window) -> bool
    ensures { result ≡ window_good w }
{
    w.left <= w.right && w.bottom <= w.top
}

// Whether a rectangle meets a window: by value, and touching counts. A raw number's value is at most z just when the number is at most 256 z + 255,
// and at least z just when it is at least 256 z: so no coordinate is divided, and what is done to the window's sides is the same for every slot. All four
// tests are made, since no branch on a coordinate can be foreseen.
pub fn meets_window(r: Rectangle, w: Window) -> bool
    ensures { result ≡ meets_window r w }
{
    let left = i64::from(signed32_of(r.left)) <= i64::from(w.right) * 256 + 255;
    let right = i64::from(w.left) * 256 <= i64::from(signed32_of(r.right));
    let bottom = i64::from(signed32_of(r.bottom)) <= i64::from(w.top) * 256 + 255;
    let top = i64::from(w.bottom) * 256 <= i64::from(signed32_of(r.top));
    left & right & bottom & top
}
