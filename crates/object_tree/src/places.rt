ghost use Rattle.std.specs.Prelude.{◌≡◌, ◌++◌, IfOk, OnOk};
ghost use Rattle.object_tree.specs.Order.{AreRising};
ghost use Rattle.object_tree.specs.Places.{places_in_slot, places_from, places_in, places_of};
ghost use Rattle.object_tree.specs.Reading.{instance_at};

use crate::instance::Instance;
use crate::objects::Objects;
use crate::property::Property;
use qml_ast::{Place, Side};
use std::alloc::{AllocError, Global};

impl Property {
    // Adds its places.
    fn add_places(&self, serial: u64, slot: u32, places: &mut Vec<Place>) -> Result<(), AllocError>
        ensures { OnOk result (places.new.items ≡ places.old.items ++ places_in_slot serial slot self.now) }
    {
        if self.set.is_some() {
            places.push(Place {
                serial,
                slot,
                side: Side::Set,
            })?;
        }
        places.push(Place {
            serial,
            slot,
            side: Side::Shown,
        })?;
        Ok(())
    }
}

impl Instance {
    // Adds the places of all its slots. So many slots that 32 bits do not number them would not fit in memory.
    #[tactic(auto, using(crate::proofs::Listed::slots_more, crate::proofs::Listed::slots_end))]
    fn add_places(&self, serial: u64, places: &mut Vec<Place>) -> Result<(), AllocError>
        ensures { OnOk result (places.new.items ≡ places.old.items ++ places_from serial 0 self.now.properties) }
    {
        for (index, property) in self.properties.as_slice().iter().enumerate() {
            let Ok(slot) = u32::try_from(index) else {
                return Err(AllocError);
            };
            property.add_places(serial, slot, places)?;
        }
        Ok(())
    }
}

impl Objects {
    // Adds the places of one object, if it is live.
    fn add_places(&self, serial: u64, places: &mut Vec<Place>) -> Result<(), AllocError>
        ensures { OnOk result (places.new.items ≡ places.old.items ++ places_in serial (instance_at serial self.now)) }
    {
        match self.instance(serial) {
            Some(instance) => instance.add_places(serial, places),
            None => Ok(()),
        }
    }

    /// All places, in the order of their objects, then of their slots; what is set comes before what is shown.
    /// The only error is that memory ran out.
    #[tactic(auto, using(crate::proofs::Listed::objects_end), unfolding(crate::specs::Places::places_of))]
    pub fn places(&self, alloc: Global) -> Result<Vec<Place>, AllocError>
        ensures places { IfOk result (λ places. places.items ≡ places_of self.now) }
        ensures rising { IfOk result (λ places. AreRising places.items) }
    {
        let mut places = Vec::new(alloc);
        let serials = self.objects.serials(alloc)?;
        for serial in &serials {
            self.add_places(*serial, &mut places)?;
        }
        Ok(places)
    }
}
