//! Laws of what runs: after writes, signals and handlers the equations hold of the objects. They stand on
//! functions that do nothing, so that a crate above can cite them by a call.
#![tactic(auto)]

ghost use Rattle.std.specs.Prelude.{ℕ, List};
ghost use Rattle.qml_ast.specs.declared.place.Place.{Place};
ghost use Rattle.qml_ast.specs.declared.value.Value.{Value};
ghost use Rattle.binding_engine.specs.Holding.{EquationsHold};
ghost use Rattle.signals.specs.Calls.{react_ran, write_ran, emit_ran, complete_ran, exec_ran};
ghost use Rattle.signals.specs.declared.world.HandlerRef.{HandlerRef};
ghost use Rattle.signals.specs.declared.world.World.{World};

/// The equations hold of the objects after a settle with its change handlers and after a write, whatever held
/// before, and after a signal, an object's completion and one handler, where they held before: each expression that no loop has
/// suspended has its value over those same objects, or its fault is marked, whatever the handlers have written.
pub fn equations_hold_after()
    ensures reacts { (writes : List Place) (w : World) → EquationsHold ((react_ran writes w).1).objects }
    ensures writes { (place : Place) (v : Value) (w : World) → EquationsHold ((write_ran place v w).1).objects }
    ensures emits { (of signal : ℕ) (args : List Value) (w : World) → EquationsHold w.objects → EquationsHold ((emit_ran of signal args w).1).objects }
    ensures completes { (of : ℕ) (w : World) → EquationsHold w.objects → EquationsHold ((complete_ran of w).1).objects }
    ensures executes { (h : HandlerRef) (args : List Value) (w : World) → EquationsHold w.objects → EquationsHold ((exec_ran h args w).1).objects }
{}
