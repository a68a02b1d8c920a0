//! The laws of the table of the builtins, each proved once. These calls do nothing; their contracts are the laws.
ghost use Rattle.std.specs.Prelude.{◌≡◌, ◌<◌, ℕ, List, Some, true};
ghost use Rattle.std.specs.List.{Contains};
ghost use Rattle.py_base.specs.declared.ids.ClassId.{ClassId};
ghost use Rattle.py_base.specs.declared.ids.NameId.{NameId};
ghost use Rattle.type_terms.specs.declared.atom.Atom.{Atom};
ghost use Rattle.type_terms.specs.declared.atom.Atom.TheVariants as atom;
ghost use Rattle.builtin_rows.specs.Lists.{row_count, name_atoms, module_atoms, result_atoms, fixed_atoms, is_function_row, is_method_row};
ghost use Rattle.builtin_rows.specs.Rows.{builtin_table, row_at};

/// Names, names of modules and rows have no atoms but those of the finite lists.
pub fn types_are_listed()
    ensures names { (n : NameId) (type : List Atom) (a : Atom) → builtin_table.name n ≡ Some type → Contains type a → Contains name_atoms a }
    ensures modules { (owner n : NameId) (type : List Atom) (a : Atom) → builtin_table.module_name owner n ≡ Some type → Contains type a → Contains module_atoms a }
    ensures results { (n : ℕ) (a : Atom) → Contains (fixed_atoms (row_at n).result) a → Contains result_atoms a }
{}

/// There are 197 rows, numbered from 0. A builtin function that a name or a name of a module has is a row of a function, and
/// the row of a class's method or call is a row of the table, that of a method a row of the class itself.
pub fn rows_are_numbered()
    ensures count { row_count ≡ 197 }
    ensures names { (row : ℕ) → Contains name_atoms (atom.BuiltFunc row) → is_function_row row ≡ true }
    ensures modules { (row : ℕ) → Contains module_atoms (atom.BuiltFunc row) → is_function_row row ≡ true }
    ensures functions { (row : ℕ) → is_function_row row ≡ true → row < row_count }
    ensures methods { (c : ClassId) (n : NameId) (row : ℕ) → builtin_table.method c n ≡ Some row → is_method_row c row ≡ true }
    ensures within { (c : ClassId) (row : ℕ) → is_method_row c row ≡ true → row < row_count }
    ensures calls { (c : ClassId) (row : ℕ) → builtin_table.class_call c ≡ Some row → row < row_count }
{}
