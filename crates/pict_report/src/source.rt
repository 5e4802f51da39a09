// The text of the prelude.
ghost use Rattle.std.specs.Prelude.{◌≡◌, ◌≤◌, length};
ghost use Rattle.pict_syntax.specs.declared.limits.TheConstants.{TEXT_LIMIT};
ghost use Rattle.pict_report.specs.Prelude.{prelude_text};

/// Lists, references and locks.
const PRELUDE: &[u8] = br"type (List X) = (rec L = /[/[] /[X L]])
type (Ref X) = [get=/[/X] set=/[X /[]]]
type Lock = [acquire=/[/[]] release=/[/[]]]
def nil (#X):(List X) = (rec \[n _] = n![])
def cons (#X x:X l:(List X)):(List X) = (rec \[_ c] = c![x l])
def foldl [#X #A f:/[A X /A] a:A l:(List X) r:/A] = (
  val (rec u) = l
  u![\[] = r!a \[x t] = foldl![f (f a x) t r]])
def ref (#X init:X):(Ref X) = (
  new c:^X
  run c!init
  def get [r:/X] = c?v = (c!v | r!v)
  def set [v:X r:/[]] = c?_ = (c!v | r![])
  [get=get set=set])
def lock ():Lock = (
  new c:^[]
  run c![]
  def acquire [r:/[]] = c?[] = r![]
  def release [r:/[]] = (c![] | r![])
  [acquire=acquire release=release])
";

/// The text of the prelude: the declarations of lists, references and locks that stand before those of a file. Takes no memory.
pub fn prelude() -> &'static [u8]
    ensures text { result.now ≡ prelude_text }
    ensures short { length result.now ≤ TEXT_LIMIT }
{
    PRELUDE
}
