ghost use Rattle.std.specs.Prelude.{◌≡◌, List, [], IfOk, OnOk};
ghost use Rattle.expr_eval.specs.Needs.{every};
ghost use Rattle.expr_eval.specs.Statements.{called};
ghost use Rattle.object_tree.specs.Settled.{meanings, arities};
ghost use Rattle.expr_eval.specs.declared.locals.NamedLocal.{NamedLocal};
ghost use Rattle.script_text.specs.Notes.{log_text};
ghost use Rattle.signals.specs.Endings.{Leaves, on, with_value};
ghost use Rattle.signals.specs.Noting.{noted};
ghost use Rattle.signals.specs.Running.{running_place, is_shown_true, with_event};
ghost use Rattle.signals.specs.Values.{logged_text};
ghost use Rattle.signals.specs.declared.world.Event.TheVariants.{Restart};

use crate::ending::{Flow, Stop};
use crate::texts::logged_text;
use crate::valuing::Setting;
use crate::world::{Event, World};
use expr_eval::{Called, Locals, Trace, call};
use object_tree::Settled;
use qml_ast::{Expr, Place, Side, Value, truth};
use script_text::Note;
use std::alloc::{AllocError, Global};
use type_table::{BuiltIn, find};

impl World {
    /// What a call that stands as a statement calls.
    pub(crate) fn called(
        &self,
        callee: &Expr,
        arguments: &[Expr],
        at: &Setting<'_>,
        locals: &Locals,
    ) -> Result<Called, AllocError>
        ensures { IfOk result (λ answer. answer ≡ (called every (meanings self.now.objects) (arities self.now.objects) callee.now arguments.now at.now.site.now.frame locals.now []).0) }
    {
        let reader = Settled {
            objects: &self.objects,
        };
        let mut trace = Trace::new(at.alloc);
        call(
            at.alloc,
            callee,
            arguments,
            at.site.frame,
            locals,
            &reader,
            &mut trace,
        )
    }

    /// Notes the texts of values.
    pub(crate) fn log(&mut self, alloc: Global, values: &[Value]) -> Result<Flow, Stop>
        ensures left { self.new.left ≡ self.old.left }
        ensures runs { (locals : List NamedLocal) → Leaves (with_value (logged_text values.now) self.old locals (λ text. on (noted (log_text text) self.old) locals)) result self.new locals }
    {
        let text = logged_text(alloc, values)?;
        self.notes.line(&Note::Log(&text))?;
        Ok(Flow::Going)
    }

    /// Whether a place shows a true value.
    pub(crate) fn is_shown_true(&self, place: Option<Place>) -> bool
        ensures { result ≡ is_shown_true place self.now.objects }
    {
        match place {
            Some(place) => truth(self.objects.value_or_null(place)),
            None => false,
        }
    }

    /// Adds that a timer which runs begins anew.
    pub(crate) fn note_restart(&mut self, of: u64) -> Result<(), AllocError>
        ensures added { OnOk result (self.new ≡ with_event (Restart of) self.old) }
        ensures left { self.new.left ≡ self.old.left }
    {
        self.events.push(Event::Restart(of))?;
        Ok(())
    }
}

/// The place of a timer's `running`.
#[tactic(auto, unfolding(crate::specs::Running::running_place))]
pub(crate) fn running_place(of: u64) -> Option<Place>
    ensures { result ≡ running_place of }
{
    let slot = find(BuiltIn::Timer, "running")?;
    Some(Place {
        serial: of,
        slot: slot.index,
        side: Side::Shown,
    })
}
