//! The line of an event: its instant, its word and its numbers.
ghost use Rattle.lab_io.specs.Piece.{fields_line};
ghost use Rattle.lab_io.specs.Sink.{Puts};
ghost use Rattle.session_report.specs.Session.{event_fields};

use lab_io::Piece::{Number, Word};
use lab_io::{PutErr, Sink, put_fields};
use player_core::Event;

pub(crate) fn put_event<O: Sink>(out: &mut O, event: Event) -> Result<(), PutErr>
    ensures { Puts (O.seen out.old) (fields_line (event_fields event)) (O.seen out.new) result }
{
    match event {
        Event::Request { at, segment, rung } => {
            let (segment, rung) = (segment as i128, rung as i128);
            put_fields(
                out,
                &[
                    Number(at as i128),
                    Word("request"),
                    Number(segment),
                    Number(rung),
                ],
            )
        }
        Event::Arrive {
            at,
            segment,
            rung,
            first,
            rate,
        } => put_fields(
            out,
            &[
                Number(at as i128),
                Word("arrive"),
                Number(segment as i128),
                Number(rung as i128),
                Word("first"),
                Number(first as i128),
                Word("rate"),
                Number(rate as i128),
            ],
        ),
        Event::Abandon {
            at,
            segment,
            rung,
            to,
            got,
        } => put_fields(
            out,
            &[
                Number(at as i128),
                Word("abandon"),
                Number(segment as i128),
                Number(rung as i128),
                Word("to"),
                Number(to as i128),
                Word("got"),
                Number(got as i128),
            ],
        ),
        Event::Seek { at, to, wasted } => {
            let (to, wasted) = (to as i128, wasted as i128);
            put_fields(
                out,
                &[
                    Number(at as i128),
                    Word("seek"),
                    Number(to),
                    Word("wasted"),
                    Number(wasted),
                ],
            )
        }
        Event::Play { at, segment, rung } => {
            let (segment, rung) = (segment as i128, rung as i128);
            put_fields(
                out,
                &[
                    Number(at as i128),
                    Word("play"),
                    Number(segment),
                    Number(rung),
                ],
            )
        }
        Event::Stall { at } => put_fields(out, &[Number(at as i128), Word("stall")]),
        Event::End { at } => put_fields(out, &[Number(at as i128), Word("end")]),
    }
}
