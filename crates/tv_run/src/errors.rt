//! Error documents as pieces.
ghost use Rattle.std.specs.Prelude.{◌≡◌, IfOk, IsTrue, Some, codes, map};
ghost use Rattle.tv_value.specs.Nested.{all_leaves};
ghost use Rattle.tv_value.specs.Orders.{in_order, job_name_cmp};
ghost use Rattle.tv_value.specs.Values.{fault_value, makers_of};
ghost use Rattle.tv_value.specs.Views.{items_view, view};
ghost use Rattle.tv_dispatch.specs.Jobs.{error_results, fault_makers};
ghost use Rattle.tv_cell.specs.Found.{document_of, is_document, with_depth};
ghost use Rattle.tv_cell.specs.PieceValues.{piece_values};
ghost use Rattle.tv_cell.specs.Soundness.{AreSound};

use crate::values::values_of;
use std::alloc::Global;
use tv_cell::{Cell, Path, Piece, Pieces, Row};
use tv_value::{Depths, ErrorDoc, Items, JobName, JobNames, Name, NoMemory, Text, Value};

/// The error document that a job makes, at each of its outputs with the declared depth. The outputs share one cell. Linear in
/// the outputs.
pub fn error_pieces(
    alloc: Global,
    at: JobName,
    why: Text,
    from: JobNames,
    outputs: &Depths,
) -> Result<Pieces, NoMemory>
    ensures sound { IfOk result AreSound }
    ensures values { IfOk result (λ ps. piece_values ps
        ≡ error_results at why from (map (λ o. o.1) outputs.now)) }
{
    let cell = error_cell(alloc, at, why, from)?;
    fault_pieces(alloc, &cell, outputs.as_slice())
}

/// The error document of a cell at each of these outputs.
fn fault_pieces(alloc: Global, cell: &Cell, outputs: &[(Name, u32)]) -> Result<Pieces, NoMemory>
    requires { IsTrue (is_document (Some (view cell.now))) }
    ensures sound { IfOk result AreSound }
    ensures values { IfOk result (λ ps. piece_values ps
        ≡ map (λ o. fault_value (with_depth o.1 (document_of (view cell.now)))) outputs.now) }
{
    let mut pieces = Vec::with_capacity(alloc, outputs.len())?;
    for output in outputs {
        pieces.push(Piece::Fault(cell.share()?, Path::top(alloc), output.1))?;
    }
    Ok(Row::of(pieces))
}

/// A cell of an error document without levels.
fn error_cell(alloc: Global, at: JobName, why: Text, from: JobNames) -> Result<Cell, NoMemory>
    ensures { IfOk result (λ c. view c ≡ fault_value (record {
      at = at;
      depth = 0;
      why = why;
      from = from;
    })) }
{
    let depth = 0;
    let error = ErrorDoc {
        at,
        depth,
        why,
        from,
    };
    Cell::put(alloc, Value::Fault(Box::new(alloc, error)?))
}

/// What a job of that name gives that binds these and is bounced: its error document names the jobs that made the faults in them.
/// Makes the values of what it binds: linear in them.
pub fn bounced_pieces(
    alloc: Global,
    at: JobName,
    inputs: &[Piece],
    outputs: &Depths,
) -> Result<Pieces, NoMemory>
    requires { AreSound inputs.now }
    ensures sound { IfOk result AreSound }
    ensures values { IfOk result (λ ps. piece_values ps ≡ error_results at (codes "bounced")
        (fault_makers (piece_values inputs.now)) (map (λ o. o.1) outputs.now)) }
{
    let from = makers_in(alloc, inputs)?;
    error_pieces(alloc, at, Text::from_str(alloc, "bounced")?, from, outputs)
}

/// The jobs that made the faults in these, in order, each once.
fn makers_in(alloc: Global, pieces: &[Piece]) -> Result<JobNames, NoMemory>
    requires { AreSound pieces.now }
    ensures { IfOk result (λ ns. ns ≡ fault_makers (piece_values pieces.now)) }
{
    let values = values_of(alloc, pieces)?;
    makers_of(alloc, values)
}

/// The jobs that made the faults in these values, in order, each once.
fn makers_of(alloc: Global, values: Items) -> Result<JobNames, NoMemory>
    ensures { IfOk result (λ ns. ns
        ≡ in_order job_name_cmp (makers_of (all_leaves (items_view values)))) }
{
    Value::List(values).faults(alloc)
}
