//! The prelude: the text of file 0 of each program, which declares the classes that every program has.

ghost use Rattle.std.specs.Prelude.{◌≡◌, ◌<◌, length};
ghost use Rattle.sa_prelude.specs.PreludeText.{prelude_text};

/// The text of the prelude. Users see its line numbers: a fault or a refusal in the prelude is reported by its line.
pub const TEXT: &[u8] = br#"abstract class $OB is end;
abstract class $STR is str:STR; end;
abstract class $IS_EQ is is_eq(o:$OB):BOOL; end;
immutable class BOOL < $STR, $IS_EQ is
  builtin is_eq(o:BOOL):BOOL; builtin not:BOOL;
  is_eq(o:$OB):BOOL is typecase o when BOOL then return is_eq(o); else return false; end; end;
  str:STR is if self then return "true"; end; return "false"; end;
end;
immutable class INT < $STR, $IS_EQ is
  builtin plus(o:INT):INT; builtin minus(o:INT):INT; builtin times(o:INT):INT;
  builtin div(o:INT):INT; builtin mod(o:INT):INT; builtin negate:INT;
  builtin is_eq(o:INT):BOOL; builtin is_lt(o:INT):BOOL;
  builtin band(o:INT):INT; builtin bor(o:INT):INT; builtin bxor(o:INT):INT;
  builtin str:STR; builtin char:CHAR;
  is_eq(o:$OB):BOOL is typecase o when INT then return is_eq(o); else return false; end; end;
  pow(n:INT):INT is assert n >= 0; r ::= 1; i ::= 0;
    loop while!(i < n); r := r * self; i := i + 1; end; return r; end;
  abs:INT is if self < 0 then return -self; end; return self; end;
  min(o:INT):INT is if o < self then return o; end; return self; end;
  max(o:INT):INT is if self < o then return o; end; return self; end;
  times! is i ::= 0; loop while!(i < self); yield; i := i + 1; end; end;
  upto!(once n:INT):INT is if n < self then quit; end; i ::= self;
    loop yield i; if i = n then quit; end; i := i + 1; end; end;
  downto!(once n:INT):INT is if self < n then quit; end; i ::= self;
    loop yield i; if i = n then quit; end; i := i - 1; end; end;
end;
immutable class CHAR < $STR, $IS_EQ is
  builtin is_eq(o:CHAR):BOOL; builtin is_lt(o:CHAR):BOOL; builtin int:INT; builtin str:STR;
  is_eq(o:$OB):BOOL is typecase o when CHAR then return is_eq(o); else return false; end; end;
end;
class STR < $STR, $IS_EQ is
  builtin size:INT; builtin aget(i:INT):CHAR; builtin cat(o:STR):STR;
  builtin substring(i:INT, n:INT):STR; builtin of(a:ARRAY{CHAR}, n:INT):STR;
  create:SAME is return ""; end;
  str:STR is return self; end;
  plus(o:STR):STR is return cat(o); end;
  plus(o:$STR):STR is return cat(o.str); end;
  is_eq(o:STR):BOOL is if size /= o.size then return false; end; i ::= 0;
    loop while!(i < size); if aget(i) /= o[i] then return false; end; i := i + 1; end;
    return true; end;
  is_eq(o:$OB):BOOL is typecase o when STR then return is_eq(o); else return false; end; end;
  is_lt(o:STR):BOOL is i ::= 0;
    loop while!(i < size and i < o.size); if aget(i) < o[i] then return true; end;
      if o[i] < aget(i) then return false; end; i := i + 1; end;
    return size < o.size; end;
  elt!:CHAR is i ::= 0; loop while!(i < size); yield aget(i); i := i + 1; end; end;
end;
class OUT is
  private builtin put(s:STR); private builtin put_int(i:INT); private builtin put_char(c:CHAR);
  create:SAME is return void; end;
  plus(s:STR) is put(s); end; plus(s:STR):SAME is put(s); return self; end;
  plus(i:INT) is put_int(i); end; plus(i:INT):SAME is put_int(i); return self; end;
  plus(c:CHAR) is put_char(c); end; plus(c:CHAR):SAME is put_char(c); return self; end;
  plus(s:$STR) is put(s.str); end; plus(s:$STR):SAME is put(s.str); return self; end;
end;
class IN is
  builtin get_byte:INT;
  create:SAME is return void; end;
  get_str:STR is l ::= #FLIST{CHAR};
    loop b ::= get_byte; if b < 0 or b = 10 then break!; end; l.push(b.char); end;
    return STR::of(l.store, l.size); end;
end;
class SYS is builtin ob_eq(a:$OB, b:$OB):BOOL; end;
partial class AREF{T} is
  builtin asize:INT; builtin aget(i:INT):T; builtin aset(i:INT, v:T);
end;
class ARRAY{T} is
  include AREF{T};
  builtin create(n:INT):SAME;
  size:INT is return asize; end;
  ind!:INT is i ::= 0; loop while!(i < asize); yield i; i := i + 1; end; end;
  elt!:T is i ::= 0; loop while!(i < asize); yield aget(i); i := i + 1; end; end;
  set!(v:T) is i ::= 0; loop while!(i < asize); aset(i, v); yield; i := i + 1; end; end;
end;
class FLIST{T} is
  readonly attr store:ARRAY{T}; readonly attr size:INT;
  create:SAME is return new; end;
  push(v:T) is
    if void(store) then store := #ARRAY{T}(8);
    elsif size = store.size then b ::= #ARRAY{T}(size * 2); i ::= 0;
      loop while!(i < size); b[i] := store[i]; i := i + 1; end; store := b; end;
    store[size] := v; size := size + 1; end;
  pop:T is size := size - 1; return store[size]; end;
  aget(i:INT):T is if i >= size then i := -1; end; return store[i]; end;
  aset(i:INT, v:T) is if i >= size then i := -1; end; store[i] := v; end;
  elt!:T is i ::= 0; loop while!(i < size); yield store[i]; i := i + 1; end; end;
end;
class FAULT < $STR is
  readonly attr kind, line:INT;
  str:STR is case kind when 1 then return "overflow"; when 2 then return "division by zero";
    when 3 then return "void"; when 4 then return "index"; when 5 then return "no branch";
    when 6 then return "no return"; else return "assert"; end; end;
end
"#;

/// The text of the prelude, `TEXT`. It ends with a line feed.
#[tactic(auto, unfolding(crate::specs::PreludeText::prelude_text))]
pub fn text() -> &'static [u8]
    ensures text { result.now ≡ prelude_text }
    ensures short { length result.now < 8192 }
{
    TEXT
}
