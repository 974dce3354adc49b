// A buffer of which the calls are lent the first items. What reaches past its end does nothing.
ghost use Rattle.std.specs.Prelude.{◌≡◌, length, IfSome};

// The memory is fixed and each order may lend another count of it, so the count stands beside the buffer. A count past the end lends nothing.
#[derive(Drop)]
pub(super) struct Buffer<'a, T> {
    pub all: &'a mut [T],
    pub count: usize,
}

impl<'a, T: Copy> Buffer<'a, T> {
    // Nothing of it is lent.
    pub fn new(all: &'a mut [T]) -> Self {
        Buffer { all, count: 0 }
    }

    // The first n are lent, each x.
    pub fn lend(&mut self, n: usize, x: T)
        requires { T.Clone.is_infallible x }
    {
        if let Some(part) = self.all.get_mut(..n) {
            part.fill(x);
            self.count = n;
        }
    }

    // The n from a place on, or none where the buffer ends before.
    fn part_mut(&mut self, at: usize, n: usize) -> Option<&mut [T]>
        ensures { IfSome result (λ part. length part.now ≡ n) }
    {
        let end = at.checked_add(n)?;
        self.all.get_mut(at..end)
    }

    // The n from a place on are x.
    pub fn fill(&mut self, at: usize, n: usize, x: T)
        requires { T.Clone.is_infallible x }
    {
        if let Some(part) = self.part_mut(at, n) {
            part.fill(x);
        }
    }

    // Items over those from a place on.
    pub fn put(&mut self, at: usize, items: &[T]) {
        if let Some(part) = self.part_mut(at, items.len()) {
            part.copy_from_slice(items);
        }
    }

    // What is lent.
    pub fn lent(&self) -> Option<&[T]> {
        self.all.get(..self.count)
    }

    pub fn lent_mut(&mut self) -> Option<&mut [T]> {
        let n = self.count;
        self.all.get_mut(..n)
    }
}

// A sum over items in which each place counts for itself.
pub(super) fn sum<T: Copy + Into<u32>>(items: &[T]) -> u32 {
    items.iter().fold(0u32, |sum, &x| {
        sum.wrapping_mul(16777619)
            .wrapping_add(x.into())
            .wrapping_add(1)
    })
}
