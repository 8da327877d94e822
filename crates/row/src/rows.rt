// Rows made, filled, asked and compared.
ghost use Rattle.std.specs.Prelude.{◌≡◌, ◌+◌, ◌<◌, ◌≤◌, ◌↔◌, [], ◌∷◌, ◌++◌, length, IsOk, OnOk, OnErr, MatchResult};
ghost use Rattle.std.specs.Cmp.{on_equiv, on_per};
ghost use Rattle.std.specs.Cmp.Lexicographic.{lists_equiv, lists_per, pointwise};
ghost use Rattle.row.specs.Items.{items};

use crate::full::Full;
use crate::row::Row;
use std::fmt;

impl<T: Copy + Default, const N: usize> Row<T, N> {
    // A row of no value.
    pub fn new() -> Self
        ensures { items result ≡ [] }
    {
        Row {
            places: [T::default(); N],
            len: 0,
        }
    }
}

impl<T: Copy, const N: usize> Row<T, N> {
    // One value more, behind the others; refused where all places are taken.
    pub fn push(&mut self, value: T) -> Result<(), Full>
        ensures variant { IsOk result ↔ (length (items self.old) < N) }
        ensures ok { OnOk result (items self.new ≡ items self.old ++ value ∷ []) }
        ensures same { OnErr result (self.new ≡ self.old) }
    {
        if self.len == N {
            return Err(Full);
        }
        self.places[self.len] = value;
        self.len += 1;
        Ok(())
    }

    // All of these values more, behind the others in their order; refused where there aren't places for all.
    pub fn extend_from_slice(&mut self, values: &[T]) -> Result<(), Full>
        ensures variant { IsOk result ↔ (length (items self.old) + length values.now ≤ N) }
        ensures ok { OnOk result (items self.new ≡ items self.old ++ values.now) }
        ensures same { OnErr result (self.new ≡ self.old) }
    {
        if values.len() > N - self.len {
            return Err(Full);
        }
        let end = self.len + values.len();
        let places = &mut self.places[..];
        places[self.len..end].copy_from_slice(values);
        self.len = end;
        Ok(())
    }
}

// The values of a slice, if there are places for all.
impl<T: Copy + Default, const N: usize> TryFrom<&[T]> for Row<T, N> {
    type Error = Full;

    ghost try_from_gives = { λ s r. MatchResult r (λ row. (items row ≡ s.now) × (length s.now ≤ N)) (λ _. N < length s.now) };

    fn try_from(values: &[T]) -> Result<Self, Full> {
        let mut row = Self::new();
        row.extend_from_slice(values)?;
        Ok(row)
    }
}

impl<T, const N: usize> Row<T, N> {
    // How many values the row has.
    pub fn len(&self) -> usize
        ensures value { result ≡ length (items self.now) }
        ensures fits { result ≤ N }
    {
        self.as_slice().len()
    }

    // The row's values.
    pub fn as_slice(&self) -> &[T]
        ensures value { result.now ≡ items self.now }
        ensures fits { length result.now ≤ N }
    {
        &self.places[..self.len]
    }
}

// Rows are alike if their values are. A derive would compare what stands behind them too, and print it.
impl<T: PartialEq, const N: usize> PartialEq for Row<T, N> {
    ghost eq = { λ r s. pointwise T.eq (items r) (items s) };

    ghost laws = { on_per items (lists_per T.laws) };

    fn eq(&self, other: &Self) -> bool {
        self.as_slice() == other.as_slice()
    }
}

impl<T: Eq, const N: usize> Eq for Row<T, N> {
    ghost laws = { on_equiv items (lists_equiv T.Eq.laws) };
}

impl<T: fmt::Debug, const N: usize> fmt::Debug for Row<T, N> {
    fn fmt<W: fmt::Write>(&self, f: &mut fmt::Formatter<W>) -> fmt::Result {
        f.debug_list().entries(self.as_slice()).finish()
    }
}
