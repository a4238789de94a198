//! What the definitions say of texts that are written out.

ghost use Rattle.std.specs.Prelude.{◌≡◌, ℕ, List, ◌∷◌, [], Some, None, codes};
ghost use Rattle.grib_names.specs.Rows.{Name, Numbers, name_rows_of};
ghost use Rattle.grib_names.specs.Table.{Duplicate, Good, NameEntries, Row, name_at, name_of, names_verdict};

/// Where a text is a table, the table has for each three numbers the name that the records of the text have, one after
/// another.
pub fn a_table_has_the_names_of_its_text()
    ensures { (text : List ℕ) (table : NameEntries) → names_verdict text ≡ Good table
        → (discipline category number : ℕ)
        → name_of table discipline category number ≡ name_of (name_rows_of text) discipline category number }
{}

/// No two parameters have one name in a table.
pub fn a_name_is_of_one_parameter()
    ensures { (text : List ℕ) (table : NameEntries) → names_verdict text ≡ Good table
        → (a b : Numbers) (name : Name) → name_at table a ≡ Some name → name_at table b ≡ Some name → a ≡ b }
{}

/// Texts that are tables. A byte order mark, quotes round a field, empty lines, and which end of line a record has, if
/// any, make no difference. A text with no record is a table.
pub fn tables_of_names_are_read()
    ensures plain { names_verdict (codes "0,0,0,t\n0,2,2,u\n")
        ≡ Good (((0, 0, 0), codes "t") ∷ ((0, 2, 2), codes "u") ∷ []) }
    ensures sorted { names_verdict (codes "0,2,2,u\n0,0,0,t\n") ≡ names_verdict (codes "0,0,0,t\n0,2,2,u\n") }
    ensures unended { names_verdict (codes "0,0,0,t\n0,2,2,u") ≡ names_verdict (codes "0,0,0,t\n0,2,2,u\n") }
    ensures quoted { names_verdict (codes "0,\"0\",0,\"t\"\r\n\n0,2,2,u\n") ≡ names_verdict (codes "0,0,0,t\n0,2,2,u\n") }
    ensures signs { names_verdict (codes "0,1,192,_C-4x\n") ≡ Good (((0, 1, 192), codes "_C-4x") ∷ []) }
    ensures none { names_verdict [] ≡ Good [] }
{}

/// Texts that are no tables, with the first record at fault.
pub fn other_names_are_refused()
    ensures numbers { names_verdict (codes "0,0,0,t\n0,0,0,u\n") ≡ Duplicate 2 }
    ensures name { names_verdict (codes "0,0,0,t\n0,2,2,u\n0,2,3,t\n") ≡ Duplicate 3 }
    ensures first { names_verdict (codes "0,0,0,t\n0,2,3,t\n0,2\n") ≡ Duplicate 2 }
    ensures badly { names_verdict (codes "0,0,0,t\n0,2,3,t,\n") ≡ Row 2 }
    ensures large { names_verdict (codes "0,0,256,t\n") ≡ Row 1 }
    ensures zeros { names_verdict (codes "0,0,00,t\n") ≡ Row 1 }
    ensures star { names_verdict (codes "*,0,0,t\n") ≡ Row 1 }
    ensures short { names_verdict (codes "0,0,0\n") ≡ Row 1 }
    ensures unnamed { names_verdict (codes "0,0,0,\n") ≡ Row 1 }
    ensures space { names_verdict (codes "0,0,0,t 2\n") ≡ Row 1 }
    ensures sign { names_verdict (codes "0,0,0,t+\n") ≡ Row 1 }
    ensures long { names_verdict (codes "0,0,0,abcdefghijklmnopqrstuvwxyz1234567\n") ≡ Row 1 }
    ensures header { names_verdict (codes "discipline,category,number,name\n") ≡ Row 1 }
{}
