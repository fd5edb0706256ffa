/// The rules that a set is judged by: how many lines it may have, how many digits its quantities,
/// and whether the lots of an advice may have a date of expiry (943, 940).
#[derive(Clone, Copy, PartialEq, Eq)]
pub enum Rules {
    /// 99 lines, quantities of five digits and sums of seven, no expiry.
    One,
    /// 999 lines, quantities of six digits and sums of nine, and of a lot in a 943 its expiry: the
    /// fourth element of the N9 after a W04.
    Two,
}

/// The rules of today: those that a command is judged by, and a sheet and a report are made by.
pub const TODAY: Rules = Rules::Two;
