//! What a command is about, as one value.

ghost use Rattle.std.specs.Prelude.{◌≡◌, ◌/◌, ◌≤◌, IfOk, IfSome, length, map, option_map, string_bytes};
ghost use Rattle.std.specs.List.{All, slice_get};
ghost use Rattle.lab_model.specs.Film.{segments_of};
ghost use Rattle.lab_model.specs.Limits.{all_ahead};
ghost use Rattle.lab_model.specs.Row.{AreUtilities};
ghost use Rattle.lab_model.specs.Seeks.{SeeksFit};
ghost use Rattle.lab_words.specs.Command.{named};
ghost use Rattle.lab_words.specs.Limits.{AreWeighed, IsRuleWithin};
ghost use Rattle.lab_words.specs.Rules.{spoken};
ghost use Rattle.lab_inputs.specs.Inputs.{AreFor, inputs_of, inputs_on, weights_by};
ghost use Rattle.lab_inputs.specs.Roles.{film_files};
ghost use Rattle.lab_inputs.specs.Settings.{Fits, misfit};
ghost use Rattle.lab_inputs.specs.Stages.{Comes, IsSettled, network_of};

use crate::contents::{Contents, Network, read_contents};
use crate::film_words::FilmWords;
use crate::settings::misfit;
use crate::stop::{Halt, Setting, Stop};
use lab_io::Shelf;
use lab_model::{Ahead, Manifest, Seek, Setup, Weights};
use lab_words::NamedRule;
use std::alloc::Global;
use std::marker::Model;

/// What a command is about: what its files hold, with the setup and the rules of its words.
///
/// There are at most 64 networks, the seeks are always within the film, and the numbers of the rules and the media ahead within
/// their limits. Whether the setup and the rules fit the film is for `fit` to say.
#[derive(Drop)]
pub struct Inputs {
    manifest: Manifest,
    setup: Setup,
    networks: Vec<Network>,
    seeks: Vec<Seek>,
    certificate: Vec<u8>,
    rules: Vec<NamedRule>,
    live: Option<Ahead>,
}

impl Model for Inputs {
    ghost use Rattle.std.specs.Prelude.{◌≤◌, length, map};
    ghost use Rattle.lab_words.specs.Command.{named};
    ghost use Rattle.std.specs.List.{All};
    ghost use Rattle.lab_model.specs.Film.{segments_of};
    ghost use Rattle.lab_model.specs.Seeks.{SeeksFit};
    ghost use Rattle.lab_words.specs.Limits.{IsRuleWithin};
    ghost use Rattle.lab_inputs.specs.Inputs.{InputValues};
    ghost use Rattle.lab_inputs.specs.Stages.{network_of};

    ghost Value = { InputValues };

    ghost view = { λ i. record {
      film = i.manifest;
      setup = i.setup;
      networks = map network_of i.networks.items;
      seeks = i.seeks.items;
      certificate = i.certificate.items;
      rules = map named i.rules.items;
      live = i.live;
    } };

    ghost invariant = { λ i. SeeksFit i.seeks.items (segments_of i.manifest)
        × All (λ r. IsRuleWithin r.1) (map named i.rules.items)
        × (length i.networks.items ≤ 64) };
}

/// The weights with the utilities of the words, or those of the table where one is named.
fn weights_of(
    name: Option<String>,
    utilities: Vec<u32>,
    table: Vec<u32>,
    rungs: u8,
    switch: u32,
    stall: u32,
    startup: u32,
) -> Weights
    requires words { AreWeighed (option_map string_bytes name) utilities.items switch stall startup }
    requires table { AreUtilities table.items rungs (length table.items / rungs) }
    ensures { result ≡ weights_by (option_map string_bytes name)
        utilities.items table.items rungs switch stall startup }
{
    match name {
        None => match Weights::from_parts(utilities, switch, stall, startup) {
            Some(weights) => weights,
            None => unreachable!(),
        },
        Some(_) => match Weights::from_table(table, rungs, switch, stall, startup) {
            Some(weights) => weights,
            None => unreachable!(),
        },
    }
}

/// The media that are there at instant 0, if the film is live.
fn media_ahead(live: Option<u32>) -> Option<Ahead>
    requires { IfSome live (λ ms. ms ≤ all_ahead) }
    ensures { result ≡ live }
{
    match live {
        Some(ms) => Ahead::new(ms),
        None => None,
    }
}

impl Inputs {
    /// What a command is about whose files hold this.
    fn of(words: FilmWords, contents: Contents) -> Inputs
        requires count { length contents.networks ≡ length words.traces }
        ensures { result ≡ inputs_on words contents }
    {
        let command = words.into_command();
        let weights = weights_of(
            command.table,
            command.utilities,
            contents.table,
            contents.manifest.rungs(),
            command.switch,
            command.stall,
            command.startup,
        );
        Inputs {
            manifest: contents.manifest,
            setup: Setup {
                buffer_ms: command.buffer_ms,
                weights,
                abandon: command.abandon,
            },
            networks: contents.networks,
            seeks: contents.seeks,
            certificate: contents.certificate,
            rules: command.rules,
            live: media_ahead(command.live),
        }
    }

    /// The film.
    pub fn manifest(&self) -> &Manifest
        ensures { result.now ≡ self.now.film }
    {
        &self.manifest
    }

    /// The buffer, the weights and whether downloads may be given up.
    pub fn setup(&self) -> &Setup
        ensures { result.now ≡ self.now.setup }
    {
        &self.setup
    }

    /// The networks, in the order of their names.
    pub fn networks(&self) -> &[Network]
        ensures value { map network_of result.now ≡ self.now.networks }
        ensures few { length result.now ≤ 64 }
    {
        &self.networks
    }

    /// The first network, of which every command line names one.
    pub fn network(&self) -> Option<&Network>
        ensures { option_map (λ n. network_of n.now) result ≡ slice_get self.now.networks 0 }
    {
        self.networks.first()
    }

    /// The seeks, none where there is no script.
    pub fn seeks(&self) -> &[Seek]
        ensures value { result.now ≡ self.now.seeks }
        ensures fit { SeeksFit result.now (segments_of self.now.film) }
    {
        &self.seeks
    }

    /// The bytes of the certificate, none where none is named.
    pub fn certificate(&self) -> &[u8]
        ensures { result.now ≡ self.now.certificate }
    {
        &self.certificate
    }

    /// The rules, in the order of the words.
    pub fn rules(&self) -> &[NamedRule]
        ensures value { map named result.now ≡ self.now.rules }
        ensures within { All (λ r. IsRuleWithin r.1) self.now.rules }
    {
        &self.rules
    }

    /// The first rule, if there is one.
    pub fn rule(&self) -> Option<&NamedRule>
        ensures value { option_map (λ r. named r.now) result ≡ slice_get self.now.rules 0 }
        ensures within { IfSome result (λ r. IsRuleWithin (spoken r.now.rule)) }
    {
        self.rules.first()
    }

    /// Of a live film the media that are there at instant 0.
    pub fn live(&self) -> Option<Ahead>
        ensures { result ≡ self.now.live }
    {
        self.live
    }

    /// The first setting that does not fit the film: the buffer, then the utilities, then the rules.
    pub fn misfit(&self) -> Option<Setting>
        ensures { result ≡ misfit self.now.setup self.now.rules self.now.film }
    {
        misfit(&self.setup, &self.rules, &self.manifest)
    }

    /// That the setup and the rules fit the film, or the stop that tells the first setting that does not.
    pub fn fit(&self) -> Result<(), Stop>
        ensures { IsSettled self.now result }
    {
        match self.misfit() {
            Some(setting) => Err(Stop::Settings(setting)),
            None => Ok(()),
        }
    }
}

/// What a command on a film is about: its files, read one after the other, and its settings.
pub fn read_inputs<F: Shelf>(alloc: Global, shelf: &mut F, words: FilmWords) -> Result<Inputs, Halt>
    ensures comes { Comes (film_files words) (λ i. i) (inputs_of words)
        (F.shelved shelf.old) result (F.shelved shelf.new) }
    ensures kept { IfOk result (AreFor words) }
{
    let contents = read_contents(alloc, shelf, words.command())?;
    Ok(Inputs::of(words, contents))
}
