//! Laws of what is barred: nothing runs, a contract is the law.
ghost use Rattle.std.specs.Prelude.{◌≡◌, ℕ, List, Some, None, true, false, codes};
ghost use Rattle.std.specs.List.{list_any};
ghost use Rattle.head_fields.specs.Fields.{has_field};
ghost use Rattle.request_guard.specs.Doors.{Fields, deciding_names, value_of, is_repeated, is_answered, is_own_origin, barred_of};

/// A head with none of the fields that decide is answered, whatever its method and its other
/// fields are: a program that sends none of them notices nothing.
pub fn a_head_without_them_is_answered()
    ensures { (hosts : List (List ℕ)) (method : List ℕ) (fields : Fields)
        → list_any (λ name. has_field name fields) deciding_names ≡ false
        → barred_of hosts method fields ≡ None }
{}

/// A program that isn't a browser, and so sends neither Origin nor Sec-Fetch fields, is answered
/// under each name of the server, whatever it sends: a form too, as curl does by itself.
pub fn a_program_is_answered()
    ensures { (hosts : List (List ℕ)) (method host : List ℕ) (fields : Fields)
        → list_any (is_repeated fields) deciding_names ≡ false
        → value_of (codes "Host") fields ≡ Some host → is_answered hosts host ≡ true
        → has_field (codes "Origin") fields ≡ false
        → has_field (codes "Sec-Fetch-Site") fields ≡ false
        → has_field (codes "Sec-Fetch-Mode") fields ≡ false
        → barred_of hosts method fields ≡ None }
{}

/// A head that is answered has at most one Host, one of the server's, and at most one Origin, the
/// Host's own: so no page under another name is answered, whatever it asks for.
pub fn no_other_page_is_answered()
    ensures once { (hosts : List (List ℕ)) (method : List ℕ) (fields : Fields)
        → barred_of hosts method fields ≡ None
        → list_any (is_repeated fields) deciding_names ≡ false }
    ensures hosts { (hosts : List (List ℕ)) (method host : List ℕ) (fields : Fields)
        → barred_of hosts method fields ≡ None → value_of (codes "Host") fields ≡ Some host
        → is_answered hosts host ≡ true }
    ensures origins { (hosts : List (List ℕ)) (method origin : List ℕ) (fields : Fields)
        → barred_of hosts method fields ≡ None → value_of (codes "Origin") fields ≡ Some origin
        → (host : List ℕ) × (value_of (codes "Host") fields ≡ Some host)
        × (is_own_origin host origin ≡ true) }
{}
