//! Laws of the definitions, each as the contract of a function that does nothing.
ghost use Rattle.std.specs.Prelude.{◌≡◌, ◌↔◌, ℕ, ◌-◌, ◌^◌, ◌≤◌, List, ◌++◌};
ghost use Rattle.port_io.specs.Faults.{Rose, GrewOrStandsAtLast};
ghost use Rattle.port_io.specs.declared.lines.Line.{Line};
ghost use Rattle.port_io.specs.Lines.{HasNoLf, StandsNext, OnlyStandsNext, with_lf};

/// Whatever bytes are left, one thing stands next in them, and only one.
pub fn one_thing_stands_next()
    ensures { (bytes : List ℕ) → (line : Line) × StandsNext line bytes × OnlyStandsNext line bytes }
{}

/// Bytes begin with one line only, and so one rest follows it.
pub fn one_line_stands_next()
    ensures { (line other rest more : List ℕ) → HasNoLf line → HasNoLf other
        → with_lf line ++ rest ≡ with_lf other ++ more → (line ≡ other) × (rest ≡ more) }
{}

/// That a count of 64 bits rose means that it is greater than before, or stands at its last value,
/// 18,446,744,073,709,551,615.
pub fn a_count_that_rose_grew_or_stands_at_its_last_value()
    ensures { (before after : ℕ) → after ≤ 2 ^ 64 - 1 → Rose before after ↔ GrewOrStandsAtLast before after }
{}
