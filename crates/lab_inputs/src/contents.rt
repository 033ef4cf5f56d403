//! What the files of a command hold, read in the order of refusals.

ghost use Rattle.std.specs.Prelude.{◌≡◌, IfOk, Ok, OnOk, length};
ghost use Rattle.lab_io.specs.Sink.{Text};
ghost use Rattle.lab_model.specs.Film.{IsFilm, rungs_of, segments_of};
ghost use Rattle.lab_model.specs.Reading.{Gives};
ghost use Rattle.lab_model.specs.Seeks.{SeeksFit};
ghost use Rattle.lab_model.specs.Steps.{map_ok};
ghost use Rattle.lab_words.specs.Command.{view};
ghost use Rattle.manifest_reader.specs.Manifest.{manifest_of};
ghost use Rattle.seek_script.specs.Script.{seeks_of};
ghost use Rattle.utility_table.specs.Table.{table_utilities};
ghost use Rattle.lab_inputs.specs.Contents.{film_alone, is_csv, no_table, trace_of, with_certificate, with_film, with_network, with_seeks, with_table};
ghost use Rattle.lab_inputs.specs.Files.{film_in, with_file};
ghost use Rattle.lab_inputs.specs.Inputs.{contents_of};
ghost use Rattle.lab_inputs.specs.Roles.{film_files, role_row};
ghost use Rattle.lab_inputs.specs.Stages.{Comes, Reads, network_of};

use crate::fetch::{FileErr, fetch_file};
use crate::role::{Role, later_files};
use crate::stop::Halt;
use lab_io::Shelf;
use lab_model::{InputFault, Manifest, Seek, Trace};
use lab_words::Command;
use manifest_reader::read_manifest;
use seek_script::read_seeks;
use std::alloc::{AllocError, Global};
use std::marker::Model;
use trace_reader::{read_trace_csv, read_trace_json};
use utility_table::read_utilities;

/// A recorded network, behind the name of its file.
#[derive(Drop)]
pub struct Network {
    pub name: String,
    pub trace: Trace,
}

/// What the files of a command hold.
#[derive(Drop)]
pub(crate) struct Contents {
    pub(crate) manifest: Manifest,
    /// The utilities of the table row by row, or one row of 0 until a table is read.
    pub(crate) table: Vec<u32>,
    /// The networks, in the order of their names.
    pub(crate) networks: Vec<Network>,
    /// The seeks, none where there is no script.
    pub(crate) seeks: Vec<Seek>,
    /// The bytes of the certificate, none where none is named.
    pub(crate) certificate: Vec<u8>,
}

impl Model for Contents {
    ghost use Rattle.std.specs.Prelude.{map};
    ghost use Rattle.lab_model.specs.Film.{segments_of};
    ghost use Rattle.lab_model.specs.Seeks.{SeeksFit};
    ghost use Rattle.lab_inputs.specs.Contents.{ContentValues, IsTable};
    ghost use Rattle.lab_inputs.specs.Stages.{network_of};

    ghost Value = { ContentValues };

    ghost view = { λ v. record {
      film = v.manifest;
      table = v.table.items;
      networks = map network_of v.networks.items;
      seeks = v.seeks.items;
      certificate = v.certificate.items;
    } };

    ghost invariant = { λ v. SeeksFit v.seeks.items (segments_of v.manifest)
        × IsTable v.manifest v.table.items };
}

/// Whether a file is in the CSV format, by its name.
fn is_csv(name: &str) -> bool
    ensures { result ≡ is_csv name.now }
{
    name.as_bytes().ends_with(b".csv")
}

/// The trace that the bytes of a file are, by the format that its name tells.
fn read_trace(alloc: Global, name: &str, bytes: &[u8]) -> Result<Trace, InputFault>
    ensures { Gives (λ periods. periods) result (trace_of name.now bytes.now) }
{
    if is_csv(name) {
        read_trace_csv(alloc, bytes)
    } else {
        read_trace_json(alloc, bytes)
    }
}

/// The network that the bytes of a file of this name are.
fn read_network(alloc: Global, name: &str, bytes: &[u8]) -> Result<Network, InputFault>
    ensures { Gives network_of result
        (map_ok (λ periods. (name.now, periods)) (trace_of name.now bytes.now)) }
{
    let trace = read_trace(alloc, name, bytes)?;
    let name = String::from_str(alloc, name)?;
    Ok(Network { name, trace })
}

/// One row of utilities of 0, which stands there until a table is read.
fn no_table(alloc: Global, m: &Manifest) -> Result<Vec<u32>, AllocError>
    ensures value { IfOk result (λ table. table.items ≡ no_table m.now) }
    ensures film { IsFilm m.now }
{
    vec![in alloc; 0; m.rungs() as usize]
}

impl Contents {
    /// The film alone.
    fn of_film(alloc: Global, manifest: Manifest) -> Result<Contents, AllocError>
        ensures { IfOk result (λ v. v ≡ film_alone manifest) }
    {
        let table = no_table(alloc, &manifest)?;
        Ok(Contents {
            manifest,
            table,
            networks: Vec::new(alloc),
            seeks: Vec::new(alloc),
            certificate: Vec::new(alloc),
        })
    }

    /// Takes another film, with no table and no seeks in it.
    fn take_film(&mut self, alloc: Global, bytes: &[u8]) -> Result<(), InputFault>
        ensures { Gives (λ done. self.new) result
            (map_ok (with_film self.old) (manifest_of bytes.now)) }
    {
        let manifest = read_manifest(alloc, bytes)?;
        let table = no_table(alloc, &manifest)?;
        self.manifest = manifest;
        self.table = table;
        self.seeks = Vec::new(alloc);
        Ok(())
    }

    /// Takes a utility table.
    fn take_table(&mut self, alloc: Global, bytes: &[u8]) -> Result<(), InputFault>
        ensures { Gives (λ done. self.new) result
            (map_ok (with_table self.old)
            (table_utilities bytes.now (segments_of self.old.film) (rungs_of self.old.film))) }
    {
        let (segments, rungs) = (self.manifest.segments(), self.manifest.rungs());
        self.table = read_utilities(alloc, bytes, segments, rungs)?.rows;
        Ok(())
    }

    /// Takes one network more.
    fn take_network(&mut self, alloc: Global, name: &str, bytes: &[u8]) -> Result<(), InputFault>
        ensures { Gives (λ done. self.new) result
            (map_ok (with_network name.now self.old) (trace_of name.now bytes.now)) }
    {
        let network = read_network(alloc, name, bytes)?;
        self.networks.push(network)?;
        Ok(())
    }

    /// Takes a seek script.
    fn take_seeks(&mut self, alloc: Global, bytes: &[u8]) -> Result<(), InputFault>
        ensures { Gives (λ done. self.new) result
            (map_ok (with_seeks self.old)
            (seeks_of bytes.now (segments_of self.old.film))) }
    {
        self.seeks = read_seeks(alloc, bytes, self.manifest.segments())?;
        Ok(())
    }

    /// Takes the bytes of a certificate.
    fn take_certificate(&mut self, bytes: Vec<u8>)
        ensures { self.new ≡ with_certificate self.old bytes.items }
    {
        self.certificate = bytes;
    }

    /// Takes what the bytes of one file more hold.
    fn take_bytes(
        &mut self,
        alloc: Global,
        role: Role,
        name: &str,
        bytes: Vec<u8>,
    ) -> Result<(), InputFault>
        ensures { Gives (λ done. self.new) result
            ((role_row role).adds name.now self.old bytes.items) }
    {
        match role {
            Role::Manifest => self.take_film(alloc, &bytes),
            Role::Utilities => self.take_table(alloc, &bytes),
            Role::Trace | Role::TraceAt(_) => self.take_network(alloc, name, &bytes),
            Role::Seeks => self.take_seeks(alloc, &bytes),
            Role::Certificate | Role::PriceCertificate => {
                self.take_certificate(bytes);
                Ok(())
            }
        }
    }

    /// Takes what one file more holds.
    fn take_file<F: Shelf>(
        &mut self,
        alloc: Global,
        shelf: &mut F,
        role: Role,
        name: &str,
    ) -> Result<(), FileErr>
        ensures reads { Reads (role, name.now) (λ done. self.new)
            (with_file self.old (role, name.now))
            (F.shelved shelf.old) result (F.shelved shelf.new) }
        ensures adds { OnOk result ((bytes : Text)
            × ((role_row role).adds name.now self.old bytes ≡ Ok self.new)) }
    {
        let bytes = fetch_file(alloc, shelf, role, name)?;
        Ok(self.take_bytes(alloc, role, name, bytes)?)
    }
}

/// The film in the file of this name.
fn read_film<F: Shelf>(alloc: Global, shelf: &mut F, name: &str) -> Result<Manifest, FileErr>
    ensures { Reads (Role.Manifest, name.now) (λ film. film) (film_in name.now)
        (F.shelved shelf.old) result (F.shelved shelf.new) }
{
    let bytes = fetch_file(alloc, shelf, Role::Manifest, name)?;
    Ok(read_manifest(alloc, &bytes)?)
}

/// What the files of a command on a film hold, read one after the other: the manifest, the utility table, the traces,
/// the seek script, the certificate.
pub(crate) fn read_contents<F: Shelf>(
    alloc: Global,
    shelf: &mut F,
    command: &Command,
) -> Result<Contents, Halt>
    ensures comes { Comes (film_files (view command.now)) (λ v. v) (contents_of (view command.now))
        (F.shelved shelf.old) result (F.shelved shelf.new) }
    ensures count { IfOk result
        (λ v. length v.networks ≡ length (view command.now).traces) }
{
    let later = later_files(alloc, command)?;
    let film = match read_film(alloc, shelf, &command.manifest) {
        Ok(film) => film,
        Err(err) => return Err(err.at(Role::Manifest)),
    };
    let mut contents = Contents::of_film(alloc, film)?;
    for file in &later {
        if let Err(err) = contents.take_file(alloc, shelf, file.role, file.name) {
            return Err(err.at(file.role));
        }
    }
    Ok(contents)
}
