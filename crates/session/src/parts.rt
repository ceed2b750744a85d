// A guarded request on a lent session, by parts: the dossier that it names is looked at where it stands, and only what the request changes is stored back.
// A function that is handed the session takes a part out, calls by value, and hands the session on or stores what came out.
ghost use Rattle.std.specs.Prelude.{◌≡◌, ◌⊎◌, Ok};
ghost use Rattle.model.specs.Things as things;
ghost use Rattle.tables.specs.View.{view_clipboard};
ghost use Rattle.state.specs.declared.Reply.TheVariants.{Done};
ghost use Rattle.state.specs.View.{SessionSound, view_request};
ghost use Rattle.state.specs.Parts.{clipped_in, numbered_in, replaced_in};
ghost use Rattle.deeds.specs.declared.classes.Class.TheVariants.{ChangeAttributes, ChangePermissions, Copy, Cut, Edit, Paste};
ghost use Rattle.enforce.specs.Requests.{Pastes, from_of};
ghost use Rattle.session.specs.Requests.{Carries, Granted, Laid, Stands, Weighs, copied_in, deed_of, edited_in, laden_step, read_in, with_attributes, with_permissions};

use deeds::classes::{
    AttributesOut, Class, DossierOut, PermissionsOut, Verdict, attributes_at, copied_at, edited_at,
    noted, pasted_at, permissions_at, read_at,
};
use enforce::{done, quiet, weighed};
use state::{Answer, Request, Session};
use tables::{Clipboard, Dossier};

// ---- a part taken out, and stored back

// The dossier of that number.
fn dossier_in(s: &mut Session, n: u8) -> Dossier
    ensures { (result ≡ numbered_in n s.old) × (s.new ≡ s.old) }
{
    if n == 1 {
        return s.one;
    }
    s.two
}

fn put_dossier(s: &mut Session, o: DossierOut) -> Answer
    ensures { (result ≡ Ok Done) × (s.new ≡ replaced_in o.dossier o.whole s.old) }
{
    let n = o.dossier;
    if n == 1 {
        s.one = o.whole;
        return done();
    }
    s.two = o.whole;
    done()
}

fn put_attributes(s: &mut Session, o: AttributesOut) -> Answer
    ensures { (result ≡ Ok Done) × (s.new ≡ replaced_in o.dossier (with_attributes (numbered_in o.dossier s.old) o.attributes) s.old) }
{
    let n = o.dossier;
    if n == 1 {
        s.one.attributes = o.attributes;
        return done();
    }
    s.two.attributes = o.attributes;
    done()
}

fn put_permissions(s: &mut Session, o: PermissionsOut) -> Answer
    ensures { (result ≡ Ok Done) × (s.new ≡ replaced_in o.dossier (with_permissions (numbered_in o.dossier s.old) o.permissions) s.old) }
{
    let n = o.dossier;
    if n == 1 {
        s.one.permissions = o.permissions;
        return done();
    }
    s.two.permissions = o.permissions;
    done()
}

fn put_clipboard(s: &mut Session, c: Clipboard) -> Answer
    ensures { (result ≡ Ok Done) × (s.new ≡ clipped_in c s.old) }
{
    s.clipboard = c;
    done()
}

// ---- the deeds, by their class

fn read(s: &mut Session, v: Verdict) -> Answer
    requires { Granted s.old v }
    ensures { (result ≡ read_in s.old v) × (s.new ≡ s.old) }
{
    let n = v.dossier;
    let d = dossier_in(s, n);
    read_at(d, v)
}

fn change_attributes(s: &mut Session, v: Verdict) -> Answer
    requires { Granted s.old v × (v.class ≡ ChangeAttributes) }
    ensures { (result ≡ Ok Done) × (s.new ≡ replaced_in v.dossier (edited_in s.old v things.empty) s.old) }
{
    let n = v.dossier;
    let d = dossier_in(s, n);
    let o = attributes_at(d, v);
    put_attributes(s, o)
}

fn change_permissions(s: &mut Session, v: Verdict) -> Answer
    requires { Granted s.old v × (v.class ≡ ChangePermissions) }
    ensures { (result ≡ Ok Done) × (s.new ≡ replaced_in v.dossier (edited_in s.old v things.empty) s.old) }
{
    let n = v.dossier;
    let d = dossier_in(s, n);
    let o = permissions_at(d, v);
    put_permissions(s, o)
}

fn edit(s: &mut Session, v: Verdict) -> Answer
    requires { Granted s.old v × ((v.class ≡ Edit) ⊎ (v.class ≡ Cut)) }
    ensures { (result ≡ Ok Done) × (s.new ≡ replaced_in v.dossier (edited_in s.old v things.empty) s.old) }
{
    let n = v.dossier;
    let d = dossier_in(s, n);
    let o = edited_at(d, v);
    put_dossier(s, o)
}

fn paste(s: &mut Session, v: Verdict) -> Answer
    requires { Granted s.old v × Laid s.old v × (v.class ≡ Paste) }
    ensures { (result ≡ Ok Done) × (s.new ≡ replaced_in v.dossier (edited_in s.old v (view_clipboard s.old.clipboard)) s.old) }
{
    let n = v.dossier;
    let d = dossier_in(s, n);
    let o = pasted_at(d, s.clipboard, v);
    put_dossier(s, o)
}

fn copy(s: &mut Session, v: Verdict) -> Answer
    requires { Granted s.old v × ((v.class ≡ Copy) ⊎ (v.class ≡ Cut)) }
    ensures { (result ≡ Ok Done) × (s.new ≡ clipped_in (copied_in s.old v things.empty) s.old) }
{
    let n = v.dossier;
    let d = dossier_in(s, n);
    let c = copied_at(d, v);
    put_clipboard(s, c)
}

// A cut is a copy, then a delete.
fn cut(s: &mut Session, v: Verdict) -> Answer
    requires { Granted s.old v × (v.class ≡ Cut) }
    ensures { (result ≡ Ok Done) × (s.new ≡ replaced_in v.dossier (edited_in s.old v things.empty) (clipped_in (copied_in s.old v things.empty) s.old)) }
{
    let a = copy(s, v);
    edit(s, v)
}

fn deed(s: &mut Session, v: Verdict) -> Answer
    requires { Stands s.old v }
    ensures { (result ≡ (deed_of s.old v).answer) × (s.new ≡ (deed_of s.old v).session) }
{
    let class = v.class;
    match class {
        Class::Read => read(s, v),
        Class::ChangeAttributes => change_attributes(s, v),
        Class::ChangePermissions => change_permissions(s, v),
        Class::Edit => edit(s, v),
        Class::Paste => paste(s, v),
        Class::Copy => copy(s, v),
        Class::Cut => cut(s, v),
    }
}

// ---- the request

// Its messages logged before; most requests have none, and leave the log alone.
fn act(s: &mut Session, v: Verdict) -> Answer
    requires { Weighs s.old v }
    ensures { (result ≡ (from_of s.old (view_request v.request) (view_clipboard s.old.clipboard)).answer)
        × (s.new ≡ (from_of s.old (view_request v.request) (view_clipboard s.old.clipboard)).session) }
{
    if quiet(v) {
        return deed(s, v);
    }
    let l = noted(s.log, v);
    s.log = l;
    deed(s, v)
}

// A request that pastes from the clipboard, if it pastes.
pub fn perform(s: &mut Session, r: Request) -> Answer
    requires { SessionSound s.old × Pastes (view_request r) (view_clipboard s.old.clipboard) }
    ensures { (result ≡ (from_of s.old (view_request r) (view_clipboard s.old.clipboard)).answer)
        × (s.new ≡ (from_of s.old (view_request r) (view_clipboard s.old.clipboard)).session) }
{
    let n = r.dossier;
    let d = dossier_in(s, n);
    let told = weighed(d, s.clipboard, s.signatures, s.log, r);
    let v = told?;
    act(s, v)
}

// Request 17 pastes its image: it lies on the clipboard for the time of the paste.
pub fn place(s: &mut Session, r: Request, c: Clipboard) -> Answer
    requires { Carries s.old r c }
    ensures { (result ≡ (laden_step s.old r c).answer) × (s.new ≡ (laden_step s.old r c).session) }
{
    let kept = s.clipboard;
    s.clipboard = c;
    let a = perform(s, r);
    s.clipboard = kept;
    a
}
