// The right to send one datagram.
ghost use Rattle.std.specs.Prelude.{◌≡◌};

use cells::table::Label;

/// A granted number and size. It cannot be copied or let go: it ends in `transmit` or `withdraw`, on every way out.
pub struct Permit {
    pub(crate) label: Label,
}

impl Permit {
    /// The number and the size, which may be copied.
    pub fn label(&self) -> Label
        ensures { result ≡ self.now.label }
    {
        let Permit { label } = self;
        *label
    }

    pub fn number(&self) -> u64
        ensures { result ≡ self.now.label.number }
    {
        self.label.number
    }

    /// The size of the datagram, in bytes.
    pub fn size(&self) -> u16
        ensures { result ≡ self.now.label.size }
    {
        self.label.size
    }

    // Only a transmit or a withdrawal that was accepted ends a permit.
    pub(crate) fn spend(self) {
        let Permit { label: _ } = self;
    }
}
