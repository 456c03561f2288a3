ghost use Rattle.std.specs.Prelude.{◌≡◌};
ghost use Rattle.object_tree.specs.Changes.{has_changed_in, has_changed, value_or_null};

use crate::objects::Objects;
use crate::property::Property;
use qml_ast::{Place, Side, Value, equal};

impl Property {
    // Whether it shows another value than when the last settle ended, in the settle of this number.
    #[tactic(auto, using(crate::proofs::Same::differs_not))]
    fn has_changed(&self, settle: u64) -> bool
        ensures { result ≡ has_changed_in settle self.now }
    {
        if self.written_in != settle {
            return false;
        }
        match &self.before {
            Some(before) => !equal(before, &self.shown.value),
            None => false,
        }
    }
}

impl Objects {
    /// Whether a place shows another value than when the last settle ended. Nothing was shown then by an object
    /// that was made since, and nothing is shown by the side of a slot that is only set.
    pub fn has_changed(&self, place: Place) -> bool
        ensures { result ≡ has_changed place self.now }
    {
        let Some(instance) = self.instance(place.serial) else {
            return false;
        };
        match (place.side, instance.properties.get(place.slot as usize)) {
            (Side::Shown, Some(property)) => property.has_changed(self.settle),
            (Side::Set, _) | (Side::Shown, None) => false,
        }
    }

    /// The last value of a place, as it is read, or null where there is no such place.
    pub fn value_or_null(&self, place: Place) -> &Value
        ensures { result.now ≡ value_or_null place self.now }
    {
        match self.value(place) {
            Some(value) => value,
            None => &self.null,
        }
    }
}
