//! Laws of what a readings file is read as. The contract of a function is the law; the call does nothing.

ghost use Rattle.series_csv.specs.Stays.{ReadStays, FilesHaveAnswers, FilesHaveOneAnswer};
ghost use Rattle.series_csv.specs.ReadBack.{TablesAreReadBack};

/// A readings file has one answer only, a part of one too: its table, or what was read, or its first fault.
pub fn one_answer()
    ensures { FilesHaveOneAnswer }
{
    series_rows::one_header();
    series_rows::one_row();
}

/// Each readings file has an answer, and each part of one.
pub fn files_have_answers()
    ensures { FilesHaveAnswers }
{
    series_rows::a_header();
    series_rows::a_row();
}

/// The header and the rows that are read of a part of a file, and a refusal, are the same whatever follows, and
/// wherever the file ends.
pub fn read_stays()
    ensures { ReadStays }
{
    series_rows::one_header();
    series_rows::one_row();
    record_cut::faults_stay();
    record_cut::records_stay();
}

/// What `table_text` writes for a table that was read, where that text is within the limits of a reader, is read again as
/// that table with the values of the series.
pub fn tables_are_read_back()
    ensures { TablesAreReadBack }
{
    record_cut::row_texts_are_cut_back();
    series_rows::rows_are_read_back();
}
