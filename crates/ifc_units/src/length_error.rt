//! Why there are no lengths.

/// Why a length has no grid number.
#[derive(Clone, Copy, Debug, PartialEq, Eq)]
pub enum GridFault {
    /// It lies between two.
    OffGrid,
    /// It is beyond 800 metres.
    TooFar,
}

/// Why values of a file give no lengths on the grid.
#[derive(Clone, Copy, Debug, PartialEq, Eq)]
pub enum LengthError {
    /// They aren't the numbers that are wanted.
    Unread,
    /// The first number that gives none has this fault.
    Refused(GridFault),
}

impl LengthError {
    ghost use Rattle.std.specs.Prelude.{◌≡◌};
    ghost use Rattle.ifc_units.specs.LengthRefusals.{fault_in};

    /// The fault; none of what can't be read.
    pub fn fault(self) -> Option<GridFault>
        ensures { result ≡ fault_in self }
    {
        match self {
            LengthError::Unread => None,
            LengthError::Refused(fault) => Some(fault),
        }
    }
}
