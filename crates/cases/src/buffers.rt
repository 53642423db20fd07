// The buffers of the calls, of which as many elements are lent to a call as the lines say.
ghost use Rattle.std.specs.Prelude.{◌≡◌, ◌≤◌, length};

// What each element holds before a call that may write it.
pub trait Marked: Copy + PartialEq {
    const MARK: Self;
}

impl Marked for u8 {
    const MARK: u8 = 238;
}

impl Marked for u16 {
    const MARK: u16 = 61166;
}

// Whether every element has its mark.
pub fn is_kept<T: Marked>(elements: &[T]) -> bool {
    elements.iter().all(|x| *x == T::MARK)
}

// A buffer, of which the first elements are lent.
#[derive(Drop)]
pub struct Buffer<T: Marked, const N: usize> {
    elements: [T; N],
    lent: usize,
    ghost within: { lent ≤ N },
}

impl<T: Marked, const N: usize> Buffer<T, N> {
    // A buffer whose elements are all this one, lent with so many, or with all where there are fewer.
    pub fn of(element: T, lent: usize) -> Self {
        Buffer {
            elements: [element; N],
            lent: lent.min(N),
        }
    }

    // A buffer for a call to write, that is lent with so many elements, or with all where there are fewer.
    pub fn marked(lent: usize) -> Self {
        Buffer::of(T::MARK, lent)
    }

    // A buffer for a call to write, that is lent as far as this one.
    pub fn marked_alike(&self) -> Self {
        Buffer::marked(self.lent)
    }

    // Lends so many elements from now on, or all where there are fewer.
    pub fn lend(&mut self, lent: usize) {
        self.lent = lent.min(N);
    }

    pub fn lent(&self) -> &[T] {
        &self.elements[..self.lent]
    }

    pub fn lent_mut(&mut self) -> &mut [T] {
        let lent = self.lent;
        &mut self.all_mut()[..lent]
    }

    // The first elements, as many as a call has written.
    pub fn first(&self, count: usize) -> &[T] {
        &self.elements[..count.min(N)]
    }

    // All elements, those that are not lent too.
    pub fn all_mut(&mut self) -> &mut [T]
        ensures { length result.now ≡ N }
    {
        let elements = &mut self.elements;
        &mut elements[..]
    }

    // Whether every element has its mark.
    pub fn is_kept(&self) -> bool {
        self.is_kept_from(0)
    }

    // Whether the elements from an index on have their mark.
    pub fn is_kept_from(&self, index: usize) -> bool {
        self.elements.iter().skip(index).all(|x| *x == T::MARK)
    }

    // Takes over the first elements, which a call has written of another buffer.
    pub fn take(&mut self, written: &[T]) {
        for (own, new) in self.elements.iter_mut().zip(written) {
            *own = *new;
        }
    }
}
