//! The texts of mappings, steps and places.
ghost use Rattle.std.specs.Prelude.{◌≡◌, ◌+◌, ◌*◌, ◌≤◌, ◌<◌, ◌++◌, OnOk, codes, decimal, string_bytes};
ghost use Rattle.std.specs.List.{All};
ghost use Rattle.gv_vm.specs.Places.{target_of};
ghost use Rattle.gv_session.specs.State.{names_alone, HavePagesThatFit, HasBytesThatFit};
ghost use Rattle.gv_session.specs.Texts.{target_text, mapping_text, rest_text, step_text, flags_text, keep_text, buffer_name};
ghost use Rattle.gv_session.specs.Texts.{lines_reply, place_text, place_reply, tables_reply, IsRestInside, IsStepInside};

use crate::buffer_names::BufferNames;
use gv_lines::write_hex;
use gv_ranges::RangeList;
use gv_split::Step;
use gv_types::{Backing, BufferId, Flags, Mapping, PAGE_BYTES};
use gv_vm::{Place, Target};
use std::alloc::AllocError;
use std::fmt::Write;

fn flags_word(flags: Flags) -> &'static str
    ensures { result.now ≡ flags_text flags }
{
    if flags.read_only { "ro" } else { "rw" }
}

fn keep_word(keep: bool) -> &'static str
    ensures { result.now ≡ keep_text keep }
{
    if keep { " keep" } else { "" }
}

/// Writes the name of a buffer.
fn write_name(out: &mut String, names: &BufferNames, id: BufferId) -> Result<(), AllocError>
    ensures { OnOk result (string_bytes out.new ≡ string_bytes out.old ++ buffer_name (names_alone names.now.entries) id) }
{
    match names.name_of(id) {
        Some(name) => out.push_str(name.as_str()),
        None => Ok(()),
    }
}

/// Writes a buffer and a byte of it.
fn write_byte(
    out: &mut String,
    names: &BufferNames,
    id: BufferId,
    byte: u64,
) -> Result<(), AllocError>
    ensures { OnOk result (string_bytes out.new
        ≡ string_bytes out.old ++ target_text (names_alone names.now.entries) (Target.Buffer id byte)) }
{
    write_name(out, names, id)?;
    out.push_str(" ")?;
    write_hex(out, byte)
}

/// Writes what stands behind an address.
fn write_target(out: &mut String, names: &BufferNames, target: Target) -> Result<(), AllocError>
    ensures { OnOk result (string_bytes out.new ≡ string_bytes out.old ++ target_text (names_alone names.now.entries) target) }
{
    match target {
        Target::Buffer { id, byte } => write_byte(out, names, id, byte),
        Target::Zero => out.push_str("zero"),
    }
}

/// Writes what stands behind the first byte of some pages.
fn write_backing(out: &mut String, names: &BufferNames, backing: Backing) -> Result<(), AllocError>
    requires { HavePagesThatFit backing 1 }
    ensures { OnOk result (string_bytes out.new
        ≡ string_bytes out.old ++ target_text (names_alone names.now.entries) (target_of backing 0)) }
{
    match backing {
        Backing::Buffer { id, page } => write_byte(out, names, id, page * PAGE_BYTES),
        Backing::Zero => out.push_str("zero"),
    }
}

/// Writes a mapping: its first byte, the byte past its end, what stands behind it, and its flags.
fn write_mapping(out: &mut String, names: &BufferNames, mapping: &Mapping) -> Result<(), AllocError>
    requires { HasBytesThatFit mapping.now }
    ensures { OnOk result (string_bytes out.new ≡ string_bytes out.old ++ mapping_text (names_alone names.now.entries) mapping.now) }
{
    write_hex(out, mapping.range.first() * PAGE_BYTES)?;
    out.push_str(" ")?;
    write_hex(out, mapping.range.end() * PAGE_BYTES)?;
    out.push_str(" ")?;
    write_backing(out, names, mapping.backing)?;
    out.push_str(" ")?;
    out.push_str(flags_word(mapping.flags))
}

/// Writes what is left of a mapping, or that nothing is.
fn write_rest(
    out: &mut String,
    names: &BufferNames,
    rest: &Option<Mapping>,
) -> Result<(), AllocError>
    requires { IsRestInside rest.now }
    ensures { OnOk result (string_bytes out.new ≡ string_bytes out.old ++ rest_text (names_alone names.now.entries) rest.now) }
{
    match rest {
        Some(mapping) => write_mapping(out, names, mapping),
        None => out.push_str("none"),
    }
}

/// Writes a split step.
fn write_step(out: &mut String, names: &BufferNames, step: &Step) -> Result<(), AllocError>
    requires { IsStepInside step.now }
    ensures { OnOk result (string_bytes out.new ≡ string_bytes out.old ++ step_text (names_alone names.now.entries) step.now) }
{
    match step {
        Step::Unmap { mapping, keep } => {
            out.push_str("unmap ")?;
            write_mapping(out, names, mapping)?;
            out.push_str(keep_word(*keep))
        }
        Step::Remap {
            mapping,
            prev,
            next,
            keep,
        } => {
            out.push_str("remap ")?;
            write_mapping(out, names, mapping)?;
            out.push_str(" prev ")?;
            write_rest(out, names, prev)?;
            out.push_str(" next ")?;
            write_rest(out, names, next)?;
            out.push_str(keep_word(*keep))
        }
        Step::Map { mapping } => {
            out.push_str("map ")?;
            write_mapping(out, names, mapping)
        }
    }
}

/// Writes each mapping on a line of its own.
pub fn write_mappings(
    out: &mut String,
    names: &BufferNames,
    list: &RangeList,
) -> Result<(), AllocError>
    requires { All HasBytesThatFit list.now.mappings }
    ensures { OnOk result (string_bytes out.new ≡
        string_bytes out.old ++ lines_reply (mapping_text (names_alone names.now.entries)) list.now.mappings) }
{
    if list.len() == 0 {
        return out.push_str("empty\n");
    }
    for mapping in list.iter() {
        write_mapping(out, names, &mapping.mapping())?;
        out.push_str("\n")?;
    }
    Ok(())
}

/// Writes each step on a line of its own.
pub fn write_steps(out: &mut String, names: &BufferNames, steps: &[Step]) -> Result<(), AllocError>
    requires { All IsStepInside steps.now }
    ensures { OnOk result (string_bytes out.new ≡
        string_bytes out.old ++ lines_reply (step_text (names_alone names.now.entries)) steps.now) }
{
    if steps.is_empty() {
        return out.push_str("empty\n");
    }
    for step in steps {
        write_step(out, names, step)?;
        out.push_str("\n")?;
    }
    Ok(())
}

/// Writes where an address leads, and how that may be accessed.
pub fn write_place_text(
    out: &mut String,
    names: &BufferNames,
    place: &Place,
) -> Result<(), AllocError>
    ensures { OnOk result (string_bytes out.new ≡ string_bytes out.old ++ place_text (names_alone names.now.entries) place.now) }
{
    write_target(out, names, place.target)?;
    out.push_str(" ")?;
    out.push_str(flags_word(place.flags))
}

/// Writes where an address leads, if it leads anywhere.
pub fn write_place(
    out: &mut String,
    names: &BufferNames,
    place: &Option<Place>,
) -> Result<(), AllocError>
    ensures { OnOk result (string_bytes out.new ≡ string_bytes out.old ++ place_reply (names_alone names.now.entries) place.now) }
{
    match place {
        Some(place) => {
            write_place_text(out, names, place)?;
            out.push_str("\n")
        }
        None => out.push_str("none\n"),
    }
}

/// Writes a count, and a space behind it.
fn write_count(out: &mut String, count: u64) -> Result<(), AllocError>
    ensures { OnOk result (string_bytes out.new ≡ string_bytes out.old ++ (decimal count ++ codes " ")) }
{
    write!(out, "{count} ")
}

/// Writes a count, and ends the line.
fn write_last_count(out: &mut String, count: u64) -> Result<(), AllocError>
    ensures { OnOk result (string_bytes out.new ≡ string_bytes out.old ++ (decimal count ++ codes "\n")) }
{
    writeln!(out, "{count}")
}

/// Writes how many tables there are, by level from the top.
pub fn write_tables(out: &mut String, tables: [u64; 5]) -> Result<(), AllocError>
    ensures { OnOk result (string_bytes out.new ≡ string_bytes out.old ++ tables_reply tables) }
{
    let [four, three, two, one, zero] = tables;
    write_count(out, four)?;
    write_count(out, three)?;
    write_count(out, two)?;
    write_count(out, one)?;
    write_last_count(out, zero)
}
