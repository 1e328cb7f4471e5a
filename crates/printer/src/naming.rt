// Whether the names are a list, and give each symbol of an image a name.
ghost use Rattle.std.specs.Prelude.{◌≡◌, List};
ghost use Rattle.format.specs.Format.{encode};
ghost use Rattle.namelist.specs.List.{Entry, naming};
ghost use Rattle.namelist.specs.ListLaws.{Stands};
ghost use Rattle.namelist.specs.NamingLaws.{some};
ghost use Rattle.namelist.specs.Sorts.{sort_named};
ghost use Rattle.printer.specs.Parts.{items, record_named, records_named, Checked};

use format::Record;
use namelist::{Sort, find, is_list};
use records::record::{next_at, record_at};

fn has_name(names: &[u8], sort: Sort, number: usize) -> bool
    requires { (l : List Entry) × Stands names.now 0 l }
    ensures { (l : List Entry) → Stands names.now 0 l → result ≡ some (naming l (sort_named sort) number) }
{
    find(names, sort, number).is_some()
}

fn is_named(names: &[u8], item: Record) -> bool
    requires { (l : List Entry) × Stands names.now 0 l }
    ensures { (l : List Entry) → Stands names.now 0 l → result ≡ record_named l item }
{
    match item {
        Record::Constant(c) => has_name(names, Sort::Constant, usize::from(c)),
        Record::Compound(f, _) => has_name(names, Sort::Compound, usize::from(f)),
        Record::Formula(p, _) => has_name(names, Sort::Predicate, usize::from(p)),
        _ => true,
    }
}

// Whether each symbol of an image has a name.
pub fn all_named(names: &[u8], image: &[u8]) -> bool
    requires stands { (l : List Entry) × Stands names.now 0 l }
    requires image_value { image.now ≡ encode (items image.now) }
    ensures { (l : List Entry) → Stands names.now 0 l → result ≡ records_named l (items image.now) }
{
    let mut i = 0;
    while i < image.len() {
        let item = record_at(image, i, image[i]);
        if !is_named(names, item) {
            return false;
        }
        i = next_at(image, i);
    }
    true
}

// Whether the names are a list; then they stand in it from its start.
pub fn check_names(names: &[u8]) -> bool
    ensures { Checked names.now result }
{
    is_list(names)
}
