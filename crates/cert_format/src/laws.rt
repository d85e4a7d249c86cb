//! Laws of certificates and their texts.
ghost use Rattle.cert_format.specs.Laws.{OneAnswer, AnAnswer, OneSpelling, RoundTrip, ShortTexts};
ghost use Rattle.cert_format.specs.Sets.{SetsTellSeries};

/// A text has one answer only: one certificate, or one refused line.
pub fn one_answer()
    ensures { OneAnswer }
{}

/// Every text has an answer: a certificate, or a refused line.
pub fn an_answer()
    ensures { AnAnswer }
{}

/// Two certificates with the same text are equal, and two texts of one certificate are equal.
pub fn one_spelling()
    ensures { OneSpelling }
{}

/// The text of a certificate is read as this certificate, and as nothing else.
pub fn round_trip()
    ensures { RoundTrip }
{}

/// Lines are short, and the text of a certificate of as many lines as a repair can have is not too long to be read.
pub fn short_texts()
    ensures { ShortTexts }
{}

/// The set lines of a series give the series again, where no two readings share a place.
pub fn sets_tell_series()
    ensures { SetsTellSeries }
{}
