ghost use Rattle.std.specs.Prelude.{◌≡◌, ◌<◌, ◌++◌, ◌∷◌, [], ℕ, List, IfOk, OnOk, Some, length, map};
ghost use Rattle.std.specs.List.{All, flat_map};
ghost use Rattle.csv.specs.Writing.{default_writer, row_text};
ghost use Rattle.edge_report.specs.EdgeRows.{edge_row, edge_rows, edges_in_order, header_row, row_fields, signal_text};
ghost use Rattle.edge_report.specs.Edges.{AreEdges, IsEdge, rank};
ghost use Rattle.edge_report.specs.InsideRows.{Wrote};

use crate::slave_edge::SlaveEdge;
use crate::slaves::{slave, total_shift};
use csv::{Writer, WriterBuilder};
use dc_base::NoMemory;
use itoa::Buffer;
use segment_file::Segment;
use std::alloc::Global;
use std::io::Write;
use sync_units::Signal;

/// The room for a row (bytes): most rows are shorter, and a longer one only makes the text grow.
const ROW_ROOM: usize = 48;

fn signal_text(signal: Signal) -> &'static str
    ensures { result.now ≡ signal_text signal }
{
    match signal {
        Signal::Sync0 => "sync0",
        Signal::Sync1 => "sync1",
    }
}

fn rank(signal: Signal) -> u8
    ensures { result ≡ rank signal }
{
    match signal {
        Signal::Sync0 => 0,
        Signal::Sync1 => 1,
    }
}

// By what edges stand in order.
fn order_key(edge: &SlaveEdge) -> (u32, u16, u8)
    ensures { result ≡ (edge.now.edge.index, edge.now.position, rank edge.now.edge.signal) }
{
    (edge.edge.index, edge.position, rank(edge.edge.signal))
}

// The edges by index, then by position, SYNC0 before SYNC1.
fn in_order(segment: &Segment, edges: Vec<SlaveEdge>) -> Result<Vec<SlaveEdge>, NoMemory>
    requires { AreEdges segment.now edges.items }
    ensures is { IfOk result (λ v. v.items ≡ edges_in_order segment.now edges.items) }
    ensures each { IfOk result (λ v. All (IsEdge segment.now) v.items) }
{
    let mut ordered = edges;
    ordered.sort_by_key(|edge| order_key(edge))?;
    Ok(ordered)
}

fn put_fields<W: Write + Drop>(writer: &mut Writer<W>, fields: &[&[u8]]) -> Result<(), NoMemory>
    ensures { OnOk result ((bytes : List ℕ) → Wrote W.contents writer.old bytes
        → Wrote W.contents writer.new (bytes ++ row_text default_writer (map (λ f. f.now) fields.now))) }
{
    match writer.write_fields(fields) {
        Ok(()) => Ok(()),
        Err(_) => Err(NoMemory),
    }
}

fn put_header<W: Write + Drop>(writer: &mut Writer<W>) -> Result<(), NoMemory>
    ensures { OnOk result ((bytes : List ℕ) → Wrote W.contents writer.old bytes → Wrote W.contents writer.new (bytes ++ header_row)) }
{
    let header: [&[u8]; 5] = [b"cycle", b"id", b"signal", b"time_fs", b"shift_ns"];
    put_fields(writer, &header)
}

fn put_texts<'a, W: Write + Drop>(
    writer: &mut Writer<W>,
    index: &'a [u8],
    id: &'a [u8],
    signal: &'a [u8],
    time: &'a [u8],
    shift: &'a [u8],
) -> Result<(), NoMemory>
    ensures { OnOk result ((bytes : List ℕ) → Wrote W.contents writer.old bytes
        → Wrote W.contents writer.new (bytes ++ row_text default_writer (index.now ∷ id.now ∷ signal.now ∷ time.now ∷ shift.now ∷ []))) }
{
    let fields: [&[u8]; 5] = [index, id, signal, time, shift];
    put_fields(writer, &fields)
}

fn put_numbers<W: Write + Drop>(
    writer: &mut Writer<W>,
    index: u32,
    id: &[u8],
    signal: Signal,
    time_fs: u64,
    shift_ns: u32,
) -> Result<(), NoMemory>
    ensures { OnOk result ((bytes : List ℕ) → Wrote W.contents writer.old bytes
        → Wrote W.contents writer.new (bytes ++ row_text default_writer (row_fields index id.now (signal_text signal) time_fs shift_ns))) }
{
    let mut indices = Buffer::new();
    let mut times = Buffer::new();
    let mut shifts = Buffer::new();
    put_texts(
        writer,
        indices.format(index).as_bytes(),
        id,
        signal_text(signal).as_bytes(),
        times.format(time_fs).as_bytes(),
        shifts.format(shift_ns).as_bytes(),
    )
}

fn put_edge<W: Write + Drop>(
    writer: &mut Writer<W>,
    segment: &Segment,
    edge: &SlaveEdge,
) -> Result<(), NoMemory>
    requires { edge.now.position < length segment.now.rows }
    ensures { OnOk result ((bytes : List ℕ) → Wrote W.contents writer.old bytes
        → Wrote W.contents writer.new (bytes ++ edge_row segment.now edge.now)) }
{
    let shift_ns = total_shift(segment, edge);
    let row = slave(segment, edge.position);
    put_numbers(
        writer,
        edge.edge.index,
        row.id.as_bytes(),
        edge.edge.signal,
        edge.edge.time_fs,
        shift_ns,
    )
}

// A text with room behind it for so many rows.
fn with_room(text: Vec<u8>, rows: usize) -> Result<Vec<u8>, NoMemory>
    ensures { IfOk result (λ v. v.items ≡ text.items) }
{
    let mut text = text;
    text.reserve_exact(rows.saturating_mul(ROW_ROOM))?;
    Ok(text)
}

// A text and behind it the rows of these edges, in this order.
fn rows_behind(text: Vec<u8>, segment: &Segment, edges: &[SlaveEdge]) -> Result<Vec<u8>, NoMemory>
    requires { All (IsEdge segment.now) edges.now }
    ensures { IfOk result (λ v. v.items ≡ text.items ++ (header_row ++ flat_map (edge_row segment.now) edges.now)) }
{
    let mut writer = WriterBuilder::new().from_writer(text);
    put_header(&mut writer)?;
    for edge in edges {
        put_edge(&mut writer, segment, edge)?;
    }
    match writer.into_inner() {
        Ok(text) => Ok(text),
        Err(_) => Err(NoMemory),
    }
}

/// A row for each edge, behind the header `cycle,id,signal,time_fs,shift_ns`: by index, then by position,
/// SYNC0 before SYNC1. The shift is the total shift of the signal (ns). The edges are as
/// [`run_summary`](crate::run_summary) wants them.
pub fn edges_csv(alloc: Global, segment: &Segment, edges: &[SlaveEdge]) -> Result<Vec<u8>, NoMemory>
    requires { AreEdges segment.now edges.now }
    ensures { IfOk result (λ text. text.items ≡ edge_rows segment.now edges.now) }
{
    let list = Vec::from_slice(alloc, edges)?;
    edges_csv_behind(Vec::new(alloc), segment, list)
}

/// A text, and behind it the rows of [`edges_csv`]. The list is sorted where it stands, and the rows are written
/// behind the text at once, so that memory holds edges and rows only once.
pub fn edges_csv_behind(
    text: Vec<u8>,
    segment: &Segment,
    edges: Vec<SlaveEdge>,
) -> Result<Vec<u8>, NoMemory>
    requires { AreEdges segment.now edges.items }
    ensures { IfOk result (λ all. all.items ≡ text.items ++ edge_rows segment.now edges.items) }
{
    let ordered = in_order(segment, edges)?;
    let text = with_room(text, ordered.len())?;
    rows_behind(text, segment, &ordered)
}
