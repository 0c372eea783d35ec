//! What holds of rule files and scripts whatever the code does. Each function's contract is the law.
ghost use Rattle.fill_text.specs.Laws.{ARecordForEachKey, EachKeyStandsOnce, EachLayerIsWritten, EachNameIsOfOneKey, EachNumberIsWritten, EachRecordIsAChange, EachTextIsWritten, KeepIsWritten};

/// Where a rule file is accepted, each number is what some record writes: a record of two fields, the key's name and
/// the number in decimal.
pub fn each_number_is_written()
    ensures { EachNumberIsWritten }
{}

/// Where a rule file is accepted, each text is what some record writes: a record of two fields, the key's name and the
/// text.
pub fn each_text_is_written()
    ensures { EachTextIsWritten }
{}

/// Where a rule file is accepted, its records begin with the names of the keys, each name once, in any order: no key is
/// missing, none stands twice, and no record has another name, but that of a key that may stand several times.
pub fn each_key_stands_once()
    ensures { EachKeyStandsOnce }
{}

/// Where a rule file is accepted, it has 32 records, one more for each optional key that stands, and one for each layer of a key that
/// may stand several times.
pub fn a_record_for_each_key()
    ensures { ARecordForEachKey }
{}

/// Where a rule file is accepted, the keep-outs' layer and data type are what two records write, or no record has either key or
/// `also_keep`.
pub fn keep_is_written()
    ensures { KeepIsWritten }
{}

/// Where a rule file is accepted, the layers of each key that may stand several times are what its records write, one each and in
/// their order, and they are at most 63.
pub fn each_layer_is_written()
    ensures { EachLayerIsWritten }
{}

/// The name of each key names that key, so no two keys have one name.
pub fn each_name_is_of_one_key()
    ensures { EachNameIsOfOneKey }
{}

/// Where a script is accepted, its edits are those that its records write, one each and in their order: a record of five
/// fields, `add` or `cut` and the four numbers of the rectangle in decimal.
pub fn each_record_is_a_change()
    ensures { EachRecordIsAChange }
{}
