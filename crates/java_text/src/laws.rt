//! The laws of the form of a text, its MUTF-8 after a count of two bytes (`lib.rt`). Each function
//! does nothing: its contract is the law, for every text and every list of bytes. A function that
//! calls another law uses it in its proof.

ghost use Rattle.java_text.specs.Laws.{
  FormIsCut,
  PartsAreForm,
  OneForm,
  NoFormBeginsAnother,
  Sequence,
  EmptyHasNone,
  OneMore,
  RestIsRead,
  NoneFollows,
  Bounds,
};

/// If bytes begin with a form, they are a count of two bytes, as many bytes that are the MUTF-8 of
/// its text, and the rest. Conversely, bytes with these parts begin with the form. So a reader may
/// split a form by hand.
pub fn parts()
    ensures cut { FormIsCut }
    ensures joined { PartsAreForm }
{}

/// Bytes begin with the form of at most one text, and with at most one rest after it.
pub fn one_form()
    ensures { OneForm }
{
    // A law does nothing at run time: the proof uses its contract.
    simd_cesu8::laws::round_trip();
}

/// No form is a proper prefix of another.
pub fn no_form_begins_another()
    ensures { NoFormBeginsAnother }
{
    one_form();
}

/// Consecutive forms are read, one after another, as their texts and as no others.
pub fn sequence()
    ensures { Sequence }
{
    one_form();
}

/// For a reader that reads one form after another. Suppose that bytes begin with some forms, and a
/// rest follows. If a form begins the rest, the bytes begin with one form more. The bytes are read
/// as the texts of these forms, and then as the rest is read. So if no form begins the rest, they
/// are read as these texts alone, and only if the rest is empty. No form begins the empty input.
pub fn in_turn()
    ensures one_more { OneMore }
    ensures rest { RestIsRead }
    ensures none_follows { NoneFollows }
    ensures empty { EmptyHasNone }
{
    one_form();
}

/// A form has two bytes more than the MUTF-8 of its text, so 2 to 65,537.
pub fn bounds()
    ensures { Bounds }
{}
