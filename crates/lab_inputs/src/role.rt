//! What the files of a command are for.

ghost use Rattle.std.specs.Prelude.{◌≡◌, ◌++◌, IfOk, OnOk, codes, map, option_map, string_bytes};
ghost use Rattle.std.specs.Fmt.{decimal};
ghost use Rattle.lab_io.specs.Sink.{Puts};
ghost use Rattle.lab_words.specs.Command.{view};
ghost use Rattle.lab_inputs.specs.Roles.{certificate_role, later_files, optional_file, role_row, trace_files, trace_role};
ghost use Rattle.lab_inputs.specs.Stages.{named_file};

use lab_io::{PutErr, Sink, put_number, put_text};
use lab_words::{Command, Verb};
use std::alloc::{AllocError, Global};

/// What a file is for.
#[derive(Clone, Copy, PartialEq, Eq, Debug)]
pub enum Role {
    /// The film.
    Manifest,
    /// The utility table.
    Utilities,
    /// The recorded network.
    Trace,
    /// One of several recorded networks, by its place from 1.
    TraceAt(usize),
    /// The seek script.
    Seeks,
    /// The certificate by labels.
    Certificate,
    /// The certificate by prices.
    PriceCertificate,
}

/// A file that a command names.
#[derive(Clone, Copy)]
pub(crate) struct FileName<'a> {
    /// What it is for.
    pub role: Role,
    pub name: &'a str,
}

impl Role {
    /// The most bytes of a file.
    pub(crate) fn limit(self) -> u64
        ensures { result ≡ (role_row self).limit }
    {
        match self {
            Role::Manifest
            | Role::Utilities
            | Role::Trace
            | Role::TraceAt(_)
            | Role::Seeks
            | Role::PriceCertificate => 67_108_864,
            Role::Certificate => 536_870_912,
        }
    }

    /// Says what a file is for.
    pub(crate) fn put<E: Sink>(self, err: &mut E) -> Result<(), PutErr>
        ensures { Puts (E.seen err.old) (role_row self).words (E.seen err.new) result }
    {
        match self {
            Role::Manifest => put_text(err, "manifest"),
            Role::Utilities => put_text(err, "utilities"),
            Role::Trace => put_text(err, "trace"),
            Role::TraceAt(place) => put_numbered_trace(err, place),
            Role::Seeks => put_text(err, "seeks"),
            Role::Certificate | Role::PriceCertificate => put_text(err, "certificate"),
        }
    }
}

/// Says a place.
fn put_place<E: Sink>(err: &mut E, place: usize) -> Result<(), PutErr>
    ensures { Puts (E.seen err.old) (decimal place) (E.seen err.new) result }
{
    put_number(err, place as i128)
}

/// Says which of several traces a file is.
fn put_numbered_trace<E: Sink>(err: &mut E, place: usize) -> Result<(), PutErr>
    ensures { Puts (E.seen err.old) (codes "trace " ++ decimal place) (E.seen err.new) result }
{
    put_text(err, "trace ")?;
    put_place(err, place)
}

/// What the trace at a place, counted from 1, is for.
fn trace_role(verb: Verb, place: usize) -> Role
    ensures { result ≡ trace_role verb place }
{
    match verb {
        Verb::Compare => Role::TraceAt(place),
        Verb::Simulate | Verb::Plan | Verb::Check | Verb::Demo => Role::Trace,
    }
}

/// The traces that a command names.
fn trace_files(alloc: Global, command: &Command) -> Result<Vec<FileName<'_>>, AllocError>
    ensures { IfOk result (λ files. map named_file files.items ≡
        trace_files (view command.entry.now).verb (view command.entry.now).traces) }
{
    let mut files = Vec::new(alloc);
    for (index, name) in command.traces.iter().enumerate() {
        let role = trace_role(command.verb, index + 1);
        files.push(FileName { role, name })?;
    }
    Ok(files)
}

/// What the certificate of a command is: one by prices, or by labels.
fn certificate_role(near: bool) -> Role
    ensures { result ≡ certificate_role near }
{
    if near {
        Role::PriceCertificate
    } else {
        Role::Certificate
    }
}

/// Adds a file of this role, where one is named.
fn push_named<'a>(
    files: &mut Vec<FileName<'a>>,
    role: Role,
    name: &'a Option<String>,
) -> Result<(), AllocError>
    ensures { OnOk result (map named_file files.new.items
        ≡ map named_file files.old.items
        ++ optional_file role (option_map string_bytes name.entry.now)) }
{
    if let Some(name) = name {
        files.push(FileName { role, name })?;
    }
    Ok(())
}

/// The files that come behind the manifest, in the order of refusals.
pub(crate) fn later_files(alloc: Global, command: &Command) -> Result<Vec<FileName<'_>>, AllocError>
    ensures { IfOk result (λ later. map named_file later.items
        ≡ later_files (view command.entry.now)) }
{
    let mut later = Vec::new(alloc);
    push_named(&mut later, Role::Utilities, &command.table)?;
    let mut traces = trace_files(alloc, command)?;
    later.append(&mut traces)?;
    push_named(&mut later, Role::Seeks, &command.seeks)?;
    let role = certificate_role(command.near);
    push_named(&mut later, role, &command.certificate)?;
    Ok(later)
}
