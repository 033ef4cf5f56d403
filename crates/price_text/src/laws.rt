//! Laws of the text, each a contract that is proved.
ghost use Rattle.std.specs.Prelude.{◌≡◌, ◌≤◌, Err, length};
ghost use Rattle.labels.specs.Parts.{CertificateParts};
ghost use Rattle.price_bounds.specs.Verdict.{PriceParts};
ghost use Rattle.certificate_text.specs.Fields.{line_refusal};
ghost use Rattle.certificate_text.specs.Form.{GapParts};
ghost use Rattle.certificate_text.specs.Reading.{certificate_of, gap_of};
ghost use Rattle.certificate_text.specs.Spelling.{gap_spelling, spelling};
ghost use Rattle.price_text.specs.Form.{IsPrices, most_bytes};
ghost use Rattle.price_text.specs.Reading.{prices_of};
ghost use Rattle.price_text.specs.Spelling.{prices_text};

/// No certificate of the form has a spelling that another one has.
pub fn one_prices_spelling()
    ensures { (c d : PriceParts) → IsPrices c → IsPrices d
        → prices_text c ≡ prices_text d → c ≡ d }
{}

/// A text is no longer than 64 MiB, so a program that takes files of that size takes each that was written.
pub fn texts_fit()
    ensures { (c : PriceParts) → IsPrices c → length (prices_text c) ≤ most_bytes }
{}

/// The three kinds of certificates are told apart by the first line: it is the bad line for each reader of another kind.
pub fn told_apart()
    ensures plain { (c : PriceParts) → certificate_of (prices_text c) ≡ Err (line_refusal 1) }
    ensures gap { (c : PriceParts) → gap_of (prices_text c) ≡ Err (line_refusal 1) }
    ensures of_plain { (c : CertificateParts) → prices_of (spelling c) ≡ Err (line_refusal 1) }
    ensures of_gap { (c : GapParts) → prices_of (gap_spelling c) ≡ Err (line_refusal 1) }
{}
