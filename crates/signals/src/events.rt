ghost use Rattle.std.specs.Prelude.{◌≡◌, ◌++◌, flat_map, option_copied, OnOk};
ghost use Rattle.signals.specs.Events.{timer_event, area_event, event_on, event_at, listed};

use crate::world::Event;
use object_tree::Objects;
use qml_ast::{Place, Value, truth};
use sqlite_items::Items;
use std::alloc::AllocError;
use type_table::BuiltIn;

// What a timer's slot tells that shows another value.
fn timer_event(serial: u64, path: &str, value: &Value) -> Option<Event>
    ensures { listed result ≡ timer_event serial path.now value.now }
{
    if path == "running" {
        return Some(Event::Running(serial, truth(value)));
    }
    if path == "interval" {
        return Some(Event::Interval(serial));
    }
    None
}

// What a mouse area's slot tells that shows another value.
fn area_event(serial: u64, path: &str, value: &Value) -> Option<Event>
    ensures { listed result ≡ area_event serial path.now value.now }
{
    if (path == "visible" || path == "enabled") && !truth(value) {
        return Some(Event::Off(serial));
    }
    None
}

fn event_on(built_in: BuiltIn, serial: u64, path: &str, value: &Value) -> Option<Event>
    ensures { listed result ≡ event_on built_in serial path.now value.now }
{
    match built_in {
        BuiltIn::Timer => timer_event(serial, path, value),
        BuiltIn::MouseArea => area_event(serial, path, value),
        _ => None,
    }
}

// What a place tells that shows another value.
fn event_at(objects: &Objects, place: Place) -> Option<Event>
    ensures { listed result ≡ event_at objects.now place }
{
    let built_in = objects.type_of(place.serial)?;
    let path = objects.path(place)?;
    event_on(built_in, place.serial, path, objects.value_or_null(place))
}

// Adds what a place tells that shows another value.
fn add_event(objects: &Objects, place: &Place, events: &mut Items<Event>) -> Result<(), AllocError>
    ensures { OnOk result (events.new ≡ events.old ++ event_at objects.now place.now) }
{
    match event_at(objects, *place) {
        Some(event) => {
            events.push(event)?;
            Ok(())
        }
        None => Ok(()),
    }
}

/// Adds what these places tell, which show other values than before.
pub(crate) fn add_events(
    objects: &Objects,
    changed: &[Place],
    events: &mut Items<Event>,
) -> Result<(), AllocError>
    ensures { OnOk result (events.new ≡ events.old ++ flat_map (event_at objects.now) changed.now) }
{
    for place in changed {
        add_event(objects, place, events)?;
    }
    Ok(())
}
