//! Loading schemas.

ghost use Rattle.std.specs.Prelude.{◌≡◌, IfErr, IfOk};
ghost use Rattle.edi_schema.specs.Classes.{Classes};
ghost use Rattle.edi_schema.specs.SchemaRefusal.{IsGoodSchema, IsSchemaRefusal};
ghost use Rattle.edicad_c.specs.Schemas.{IsLoaded, IsLoadedUnder, codes_in_order, usual_codes};

use crate::answer::Answer;
use crate::content::Content;
use crate::handle::Handle;
use edi_schema::{Kinds, Schema, SchemaFault};
use std::alloc::{AllocError, Global};

/// Loads the schema of a file of classes and a dictionary, under the usual codes of the kinds, into a handle.
#[unsafe(no_mangle)]
pub extern "C" fn edicad_schema_load(
    alloc: Global,
    scd: &[u8],
    dic: &[u8],
    schema: &mut Handle,
) -> Answer
    ensures { IsLoaded scd.now dic.now usual_codes schema.new.held result }
{
    load(alloc, scd, dic, &Kinds::usual(), schema)
}

/// Loads the schema of a file of classes and a dictionary, under these codes of the kinds, into a handle.
#[unsafe(no_mangle)]
pub extern "C" fn edicad_schema_load_kinds(
    alloc: Global,
    scd: &[u8],
    dic: &[u8],
    initial: &[u8],
    final_node: &[u8],
    left: &[u8],
    right: &[u8],
    schema: &mut Handle,
) -> Answer
    ensures { IsLoadedUnder scd.now dic.now (codes_in_order initial.now final_node.now left.now right.now)
        schema.new.held result }
{
    match Kinds::new(initial, final_node, left, right) {
        Some(kinds) => load(alloc, scd, dic, &kinds, schema),
        None => {
            schema.clear(alloc);
            Answer::wrong_call()
        }
    }
}

// Loads the schema of two files into a handle.
fn load(alloc: Global, scd: &[u8], dic: &[u8], kinds: &Kinds<'_>, schema: &mut Handle) -> Answer
    ensures { IsLoaded scd.now dic.now kinds.now schema.new.held result }
{
    schema.clear(alloc);
    match load_content(alloc, scd, dic, kinds) {
        Ok(content) => {
            schema.put(content);
            Answer::done()
        }
        Err(fault) => Answer::of_schema(&fault),
    }
}

// The schema of two files, in a box.
fn load_content(
    alloc: Global,
    scd: &[u8],
    dic: &[u8],
    kinds: &Kinds<'_>,
) -> Result<Box<Content>, SchemaFault>
    ensures schema { IfOk result (λ content. (s : Classes) × IsGoodSchema scd.now dic.now kinds.now s
        × (content.value ≡ Content.Schema s)) }
    ensures refusal { IfErr result (IsSchemaRefusal scd.now dic.now kinds.now) }
{
    let schema = Schema::load(alloc, scd, dic, kinds)?;
    match Box::new(alloc, Content::Schema(schema)) {
        Ok(content) => Ok(content),
        Err(_) => Err(SchemaFault::Memory(AllocError)),
    }
}
