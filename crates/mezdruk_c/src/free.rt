// What gives memory back.
ghost use Rattle.std.specs.Prelude.{◌≡◌, [], None};
ghost use Rattle.mezdruk_c.specs.Buffers.{buffer_bytes};
ghost use Rattle.mezdruk_c.specs.Owned.{owned_payload};

use crate::buffer::ResultBuffer;
use crate::document::Document;
use std::alloc::Global;

/// Frees the bytes of a buffer, and leaves it with none. A buffer of no bytes stays one, so a
/// second call does no harm.
#[unsafe(no_mangle)]
pub extern "C" fn mezdruk_free(alloc: Global, buffer: &mut ResultBuffer)
    ensures { buffer_bytes buffer.new ≡ [] }
{
    *buffer = ResultBuffer::empty(alloc);
}

/// Frees a document, and leaves it empty. An empty document stays empty, so a second call does no
/// harm.
#[unsafe(no_mangle)]
pub extern "C" fn mezdruk_free_document(alloc: Global, document: &mut Document)
    ensures { owned_payload document.new.owner ≡ None }
{
    *document = Document::empty(alloc);
}
