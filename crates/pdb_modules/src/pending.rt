//! The line record that waits for its length.

ghost use Rattle.std.specs.Prelude.{◌≡◌, [], ◌∷◌, true, false, Some, None};
ghost use Rattle.std.specs.Option.{option_map};
ghost use Rattle.pdb_symbols.specs.Annotations.{emits};
ghost use Rattle.pdb_modules.specs.Inlined.{seen, given, own_length, record_of, sized, ended_at};

use crate::line_info::LineInfo;
use crate::seen::Seen;
use pdb_symbols::BinaryAnnotation;

// What annotations said so far, and the last record that they made, of which the length may still come.
#[derive(Drop)]
pub(crate) struct Lines {
    pub section: u16,
    pub seen: Seen,
    pub pending: Option<LineInfo>,
}

// A record has this length, if it has none yet and is of the kind that is seen.
#[inline]
fn give_length(line: &mut LineInfo, seen: &Seen, size: u32)
    ensures { line.new ≡ sized seen.now size line.old }
{
    if line.length.is_none() && line.kind == seen.kind {
        line.length = Some(size);
    }
}

impl Lines {
    // Emits a record of this length, and gives the one before it, whose code ends here.
    #[inline]
    pub(crate) fn emit(&mut self, length: Option<u32>) -> Option<LineInfo>
        ensures gives { result ≡ option_map (ended_at self.old.seen) self.old.pending }
        ensures pending { self.new ≡ record self.old { pending = Some (record_of self.old.section self.old.seen length) } }
    {
        if let Some(last) = &mut self.pending {
            let size = self.seen.code_offset().wrapping_sub(last.offset.offset);
            give_length(last, &self.seen, size);
        }
        let line = self.seen.record(self.section, length);
        self.pending.replace(line)
    }

    // Takes in one more annotation. Returns whether it emits a record, and then the length that it says of it.
    #[inline]
    pub(crate) fn take_in(&mut self, annotation: BinaryAnnotation) -> Option<Option<u32>>
        ensures section { self.new.section ≡ self.old.section }
        ensures seen { self.new.seen ≡ seen self.old.seen (annotation ∷ []) }
        ensures quiet { emits annotation ≡ false → (result ≡ None) × (self.new.pending ≡ option_map (given annotation self.new.seen) self.old.pending) }
        ensures emits { emits annotation ≡ true → (result ≡ Some (own_length annotation)) × (self.new.pending ≡ self.old.pending) }
    {
        self.seen.take_in(annotation);
        match annotation {
            BinaryAnnotation::ChangeCodeOffset(_)
            | BinaryAnnotation::ChangeCodeOffsetAndLineOffset(..) => Some(None),
            BinaryAnnotation::ChangeCodeLengthAndCodeOffset(size, _) => Some(Some(size)),
            BinaryAnnotation::ChangeCodeLength(size) => {
                if let Some(line) = &mut self.pending {
                    give_length(line, &self.seen, size);
                }
                None
            }
            _ => None,
        }
    }
}
