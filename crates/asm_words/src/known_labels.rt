//! Labels by their names.

ghost use Rattle.std.specs.Prelude.{◌≡◌, ◌++◌, ◌∷◌, [], slice_get, OnOk, OnErr};
ghost use Rattle.std.specs.Option.{option_copied};
ghost use Rattle.asm_words.specs.Labels.{first_of};

use class_model::{Memory, Name};
use std::alloc::Global;
use std::collections::BTreeMap;
use std::marker::Model;

/// A label, and the number of the instruction before which it stands.
#[derive(Drop)]
pub struct Label {
    pub name: Name,
    pub at: u64,
    /// The number of its line.
    pub line: u64,
}

/// Labels in their order. Contracts see them as the list.
#[derive(Drop)]
pub struct KnownLabels {
    labels: Vec<Label>,
    // the place of the first label of each name, so that finding one costs no walk over the labels
    places: BTreeMap<Name, usize>,
}

impl Model for KnownLabels {
    ghost use Rattle.std.specs.Prelude.{List};
    ghost use Rattle.asm_words.specs.declared.known_labels.Label.{Label};
    ghost use Rattle.asm_words.specs.LabelPlaces.{HasFirstPlaces};

    ghost Value = { List Label };

    ghost view = { λ k. k.labels.items };

    ghost invariant = { λ k. HasFirstPlaces k.places k.labels.items };
}

fn label_at(labels: &[Label], place: usize) -> Option<&Label>
    ensures { option_copied result ≡ slice_get labels.now place }
{
    labels.get(place)
}

impl KnownLabels {
    pub fn new(alloc: Global) -> KnownLabels
        ensures { result ≡ [] }
    {
        KnownLabels {
            labels: Vec::new(alloc),
            places: BTreeMap::new(alloc),
        }
    }

    /// Adds a label at the end. Where memory runs out the labels are unchanged.
    pub fn push(&mut self, label: Label) -> Result<(), Memory>
        ensures ok { OnOk result (self.new ≡ self.old ++ label ∷ []) }
        ensures err { OnErr result (self.new ≡ self.old) }
    {
        if self.places.contains_key(&label.name) {
            self.labels.push(label)?;
            return Ok(());
        }
        let name = label.name.copy()?;
        let place = self.labels.len();
        self.labels.push(label)?;
        if self.places.insert(name, place).is_err() {
            self.labels.truncate(place);
            return Err(Memory);
        }
        Ok(())
    }

    /// The first label of a name.
    pub fn first(&self, name: &Name) -> Option<&Label>
        ensures { option_copied result ≡ first_of self.now name.now }
    {
        let place = self.places.get(name)?;
        label_at(self.labels.as_slice(), *place)
    }
}
