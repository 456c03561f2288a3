ghost use Rattle.std.specs.Prelude.{◌≡◌, ◌++◌, map, IfOk, OnOk};
ghost use Rattle.std.specs.Map.{keys_of};
ghost use Rattle.object_tree.specs.Handlers.{handler_seen, handler_of, layer_handlers, handlers_under, handlers_at};

use crate::handlers::Handler;
use crate::instance::Layer;
use crate::objects::Objects;
use qml_types::HandlerDecl;
use std::alloc::{AllocError, Global};

impl Layer {
    // Adds these handlers that it declares of an object.
    fn add_handlers<'a>(
        &'a self,
        serial: u64,
        decls: &'a [HandlerDecl],
        handlers: &mut Vec<Handler<'a>>,
    ) -> Result<(), AllocError>
        ensures { OnOk result (map handler_seen handlers.new.items ≡ map handler_seen handlers.old.items ++ map (handler_of serial self.now) decls.now) }
    {
        for decl in decls {
            handlers.push(self.handler(serial, decl))?;
        }
        Ok(())
    }
}

// The handlers that these layers declare of an object.
fn handlers_under<'a>(
    alloc: Global,
    serial: u64,
    layers: &'a [Layer],
) -> Result<Vec<Handler<'a>>, AllocError>
    ensures { IfOk result (λ handlers. map handler_seen handlers.items ≡ handlers_under serial layers.now) }
{
    let mut handlers = Vec::new(alloc);
    for layer in layers {
        layer.add_handlers(serial, layer.handlers(), &mut handlers)?;
    }
    Ok(handlers)
}

impl Objects {
    /// The handlers of an object, the innermost document's first, and those of one document in its order; none where
    /// the object is not live. The only error is that memory ran out.
    pub fn handlers(&self, alloc: Global, serial: u64) -> Result<Vec<Handler<'_>>, AllocError>
        ensures { IfOk result (λ handlers. map handler_seen handlers.items ≡ handlers_at serial self.now) }
    {
        match self.instance(serial) {
            Some(instance) => handlers_under(alloc, serial, instance.layers.as_slice()),
            None => Ok(Vec::new(alloc)),
        }
    }

    /// The serials of the live objects, rising. The only error is that memory ran out.
    pub fn serials(&self, alloc: Global) -> Result<Vec<u64>, AllocError>
        ensures { IfOk result (λ serials. serials.items ≡ keys_of self.now.objects.things) }
    {
        self.objects.serials(alloc)
    }
}
