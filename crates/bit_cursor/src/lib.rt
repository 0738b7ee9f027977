#![tactic(auto)]

// A cursor on a payload of family 1 or 2: "The tree bits and the labels are read in step". It goes by value, and its methods hand back the next bit or label with
// the cursor moved on. Bits come from a word of 64, labels from the payload or the work area. It knows no letters and no plans.
// Kinds and families are numbers here, and what is promised holds of any number (decision 173).
ghost use Rattle.std.specs.Prelude.{◌≡◌, true, ◌*◌, ◌^◌, ◌≤◌, ◌<◌, length};
ghost use Rattle.packing.specs.Unpack.{bits};
ghost use Rattle.packing.specs.Payload.{has_labels, Sized};
ghost use Rattle.unpacker.specs.Unpacked.{labels_in};
ghost use Rattle.bit_cursor.specs.Cursors.{Sees, next_bit, next_label};

// How many tree bits and how many labels are read. The next tree bit is the highest of the word.
#[derive(Clone, Copy)]
pub struct Cursor {
    pub word: u64,
    pub bits: usize,
    pub labels: usize,
}

// A tree bit or a label, and the cursor moved on past it.
#[derive(Clone, Copy)]
pub struct Next {
    pub value: u16,
    pub cursor: Cursor,
}

impl Cursor {
    // The cursor at the same place, its word filled anew.
    pub fn filled(self, payload: &[u8]) -> Cursor
        requires { self.bits < 2 ^ 32 }
        ensures { (result.bits ≡ self.bits) × (result.labels ≡ self.labels) × Sees (bits payload.now) result 57 }
    {
        Cursor {
            word: bit_window::from(payload, self.bits),
            ..self
        }
    }

    // The next tree bit.
    pub fn bit(self) -> Next
        requires { self.bits < 2 ^ 32 }
        ensures { result ≡ next_bit self }
    {
        Next {
            value: (self.word >> 63) as u16,
            cursor: Cursor {
                word: self.word << 1,
                bits: self.bits + 1,
                ..self
            },
        }
    }

    // The next label.
    pub fn label(self, payload: &[u8], family: u16, m: usize, w: &[u16]) -> Next
        requires { (has_labels family ≡ true) × Sized family m payload.now × (32 * m ≤ length w.now) × (self.labels < m) }
        ensures { result ≡ next_label (labels_in family m payload.now w.now) self }
    {
        Next {
            value: unpacker::label_at(payload, family, m, w, self.labels),
            cursor: Cursor {
                labels: self.labels + 1,
                ..self
            },
        }
    }
}
