// The fields of a table as bytes of each stored form, written to the front of a lent output that has room.
#![tactic(auto)]

ghost use Rattle.std.specs.Prelude.{◌≡◌, ◌++◌, ◌+◌, ◌*◌, ◌≤◌, length, drop};
ghost use Rattle.fields.specs.Limits.{Within};
ghost use Rattle.oldform.specs.Form.{old_bytes};
ghost use Rattle.newform.specs.Form.{new_bytes};

use fields::Fields;

// Writes fields in the new form to the front of an output and leaves what follows.
pub fn put_new(out: &mut [u8], f: Fields)
    requires { Within f × (4 + 9 * f.n ≤ length out.old) }
    ensures { out.new ≡ new_bytes f ++ drop (length (new_bytes f)) out.old }
{
    let n = f.n;
    out[0] = 0;
    out[1] = n as u8;
    out[2] = f.m as u8;
    out[3] = f.charge as u8;
    let periods = f.periods;
    let budgets = f.budgets;
    let affinity = f.affinity;
    packing::put_words(out, newform::LEAD, &periods[..n]);
    packing::put_words(out, newform::LEAD + 4 * n, &budgets[..n]);
    packing::put_bytes(out, newform::LEAD + 8 * n, &affinity[..n]);
}

// The same in the old form, which has no place for charge and core bytes.
pub fn put_old(out: &mut [u8], f: Fields)
    requires { Within f × (2 + 8 * f.n ≤ length out.old) }
    ensures { out.new ≡ old_bytes f ++ drop (length (old_bytes f)) out.old }
{
    let n = f.n;
    out[0] = n as u8;
    out[1] = f.m as u8;
    let periods = f.periods;
    let budgets = f.budgets;
    packing::put_words(out, oldform::LEAD, &periods[..n]);
    packing::put_words(out, oldform::LEAD + 4 * n, &budgets[..n]);
}
