// The rows of the joined sheet, and the rows of the two sheets that they come from.
ghost use Rattle.std.specs.Prelude.{◌≡◌, ◌≤◌};
ghost use Rattle.sheet.specs.Sheet.{sheet_rows};
ghost use Rattle.joining.specs.Joining.{source_row};
ghost use Rattle.joining.specs.Lines.{source_as};

// A row of the first sheet, or of the second.
#[derive(Drop)]
pub enum Source {
    First(usize),
    Second(usize),
}

// The row that stands at row i of the joined sheet: the public rows of the first, those of the second, the other rows of the first, those of
// the second.
#[tactic(auto, unfolding(crate::specs::Joining::source_row))]
pub fn source_of(n: usize, l: usize, m: usize, i: usize) -> Source
    requires { (n ≤ sheet_rows) × (l ≤ n) × (m ≤ n) }
    ensures { result ≡ source_as (source_row n l m i) }
{
    if i < l {
        return Source::First(i);
    }
    if i < l + m {
        return Source::Second(i - l);
    }
    if i < n + m {
        return Source::First(i - m);
    }
    Source::Second(i - n)
}
