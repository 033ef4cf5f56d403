//! Laws of the text, each a contract that is proved.
ghost use Rattle.std.specs.Prelude.{◌≡◌};
ghost use Rattle.session_reader.specs.Form.{Tellings};
ghost use Rattle.session_reader.specs.Reading.{HasToldText};
ghost use Rattle.session_reader.specs.Spelling.{sheet_text};

/// No sessions have a text that others have.
pub fn one_sheet_text()
    ensures { (s t : Tellings) → HasToldText s → HasToldText t → sheet_text s ≡ sheet_text t → s ≡ t }
{}
