//! Part 11 of the files of lib/.

/// The texts of this part, each behind the words that ask for it.
pub(crate) const FILES_10: [(&str, &str, &str, &str); 2] = [
    ("str_cursor", "str_cursor.sa", "str_cursor.sa", STR_CURSOR),
    ("text", "text.sa", "text.sa", TEXT),
];

const STR_CURSOR: &str =
    r#"-- STR_CURSOR: a place in a text, which goes forward as bytes, words and numbers are taken from the text. Places count from 0. Many features
-- have two names, since older code has both.
--
--    cursor ::= #STR_CURSOR("  width = 12, deep");
--    name ::= cursor.get_word; cursor.skip_space;
--    if cursor.test('=') then cursor.next; end;
--    #OUT + name + ":" + (cursor.get_int + 1) + "\n";                                   -- width:13
--    #OUT + cursor.get_upto(',').size + cursor.remaining + cursor.is_done + "\n";       -- 0 deepfalse
class STR_CURSOR is
   -- The text, and the place of the next byte; at the end it is the size of the text.
   readonly attr buffer:STR;
   readonly attr index:INT;

   invariant:BOOL is return index >= 0 and index <= buffer.size; end;

   -- A cursor at the beginning of a text.
   create(text:STR):SAME post result.index = 0 is cursor ::= new; cursor.buffer := text; return cursor; end;

   -- Goes back to the beginning; goes to a place; and has another text, at its beginning.
   reset post index = 0 is index := 0; end;
   go_to(place:INT) pre place >= 0 and place <= buffer.size post index = place is index := place; end;
   assign(text:STR) post index = 0 is buffer := text; index := 0; end;

   -- Whether the end is reached, by two names.
   is_done:BOOL post result = (index = buffer.size) is return index >= buffer.size; end;
   done:BOOL is return index >= buffer.size; end;

   -- The next byte, which stays, by two names; the fault `index` at the end.
   item:CHAR is return buffer[index]; end;
   current:CHAR is return buffer[index]; end;

   -- Whether the next byte is this one; false at the end.
   test(c:CHAR):BOOL is return index < buffer.size and buffer[index] = c; end;

   -- Goes one byte further, by two names, or n bytes, and back; not past the end, nor past the beginning.
   next is index := (index + 1).min(buffer.size); end;
   advance is index := (index + 1).min(buffer.size); end;
   advance(n:INT) pre n >= 0 is index := index + n.min(buffer.size - index); end;
   retract(n:INT) pre n >= 0 is index := index - n.min(index); end;

   -- Goes past blanks: spaces, tabs, and what begins a line or a page; and past all bytes that are one of a text.
   skip_space is loop while!(index < buffer.size and is_space(buffer[index])); index := index + 1; end; end;
   skip(bytes:STR) is loop while!(index < buffer.size and is_one(buffer[index], bytes)); index := index + 1; end; end;

   -- The next byte, and goes past it, by two names; the fault `index` at the end.
   get_char:CHAR is c ::= buffer[index]; index := index + 1; return c; end;
   get_item:CHAR is c ::= buffer[index]; index := index + 1; return c; end;

   -- The bytes up to the next one that is this one, and goes past that; the rest where there is none.
   get_upto(c:CHAR):STR is
      start ::= index;
      loop until!(index >= buffer.size or buffer[index] = c); index := index + 1; end;
      text ::= buffer.substring(start, index - start);
      next;
      return text;
   end;

   -- The bytes up to the end of the line, and goes past that.
   get_line:STR is return get_upto('\n'); end;

   -- The bytes behind blanks up to the next blank, by two names; the empty text where none is left.
   get_str:STR is return get_word; end;
   get_word:STR is
      skip_space;
      start ::= index;
      loop until!(index >= buffer.size or is_space(buffer[index])); index := index + 1; end;
      return buffer.substring(start, index - start);
   end;

   -- Whether a whole number of INT stands behind blanks: digits, perhaps with a sign before them. The place stays.
   is_int:BOOL is
      start ::= index; value:INT;
      found ::= takes_int(out value);
      index := start;
      return found;
   end;

   -- The whole number behind blanks, and goes past it, by two names. Where none stands there, "no whole number" is raised, and the place
   -- stays.
   int:INT is return get_int; end;
   get_int:INT is
      start ::= index; value:INT;
      if ~takes_int(out value) then index := start; raise "no whole number"; end;
      return value;
   end;

   -- The BOOL whose text stands behind blanks, and goes past it, by two names. Where none stands there, "no truth value" is raised, and the
   -- place stays.
   bool:BOOL is return get_bool; end;
   get_bool:BOOL is
      start ::= index;
      word ::= get_word;
      if word = "true" then return true; elsif word = "false" then return false; end;
      index := start;
      raise "no truth value";
   end;

   -- What is left, by two names. The place stays.
   rest:STR is return buffer.substring(index, buffer.size - index); end;
   remaining:STR is return rest; end;

   -- Takes a number, and whether there was one. It is made below 0, where there is one more number than above.
   private takes_int(out value:INT):BOOL is
      skip_space;
      is_below ::= test('-'); digits ::= 0;
      if is_below or test('+') then index := index + 1; end;
      loop
         while!(index < buffer.size and buffer[index] >= '0' and buffer[index] <= '9');
         digit ::= buffer[index].int - '0'.int;
         if value < (-2147483647 - 1 + digit) / 10 then return false; end;
         value := value * 10 - digit; digits := digits + 1; index := index + 1;
      end;
      if digits = 0 or (~is_below and value = -2147483647 - 1) then return false; end;
      if ~is_below then value := -value; end;
      return true;
   end;

   private is_space(c:CHAR):BOOL is return c = ' ' or (c >= '\t' and c <= '\r'); end;
   private is_one(c:CHAR, bytes:STR):BOOL is loop if bytes.elt! = c then return true; end; end; return false; end;
end;
"#;

const TEXT: &str =
    r#"-- CHARS and TEXT: what CHAR and STR of the prelude lack, as routines and iters of classes of their own: `TEXT::upper(s)` stands for
-- `s.upper`. Places count from 0. Letters are those of ASCII; other bytes are kept as they are.
--
--    loop word ::= TEXT::split!("one, two,three", ','); #OUT + "[" + TEXT::trim(word) + "]"; end;    -- [one][two][three]
--    #OUT + TEXT::upper("Sather") + TEXT::search("Sather", "the") + "\n";                            -- SATHER2
--    if TEXT::is_int("-12") then #OUT + (TEXT::int("-12") + 2) + "\n"; end;                          -- -10
--    parts:ARRAY{STR} := |"a", "b", "c"|;
--    #OUT + TEXT::join(parts, "-") + " " + TEXT::right(7.str, 3) + " " + TEXT::hex(255) + "\n";      -- a-b-c   7 ff
class CHARS is
   -- Whether it is one of 0 to 9.
   is_digit(c:CHAR):BOOL post result = (c >= '0' and c <= '9') is return c >= '0' and c <= '9'; end;

   -- Whether it is one of a to z.
   is_lower(c:CHAR):BOOL post result = (c >= 'a' and c <= 'z') is return c >= 'a' and c <= 'z'; end;

   -- Whether it is one of A to Z.
   is_upper(c:CHAR):BOOL post result = (c >= 'A' and c <= 'Z') is return c >= 'A' and c <= 'Z'; end;

   -- Whether it is a letter.
   is_alpha(c:CHAR):BOOL is return is_lower(c) or is_upper(c); end;

   -- Whether it is a letter or a digit.
   is_alphanum(c:CHAR):BOOL is return is_alpha(c) or is_digit(c); end;

   -- Whether it is a space, a tab, or one of those that begin a line or a page.
   is_space(c:CHAR):BOOL is return c = ' ' or (c >= '\t' and c <= '\r'); end;

   -- The capital of a small letter, and what else it is as it is.
   upper(c:CHAR):CHAR is if is_lower(c) then return (c.int - 32).char; end; return c; end;

   -- The small letter of a capital, and what else it is as it is.
   lower(c:CHAR):CHAR is if is_upper(c) then return (c.int + 32).char; end; return c; end;

   -- The value of a digit, where a to z stand for 10 to 35, in either size; -1 of what is none.
   digit_value(c:CHAR):INT post result >= -1 and result < 36 is
      if is_digit(c) then return c.int - '0'.int;
      elsif is_alpha(c) then return lower(c).int - 'a'.int + 10;
      end;
      return -1;
   end;

   -- The digit of a value from 0 to 35.
   digit(value:INT):CHAR pre value >= 0 and value < 36 is return "0123456789abcdefghijklmnopqrstuvwxyz"[value]; end;
end;

class TEXT is
   private const least:INT := -2147483647 - 1;

   -- The first n bytes.
   head(s:STR, n:INT):STR pre n >= 0 and n <= s.size post result.size = n is return s.substring(0, n); end;

   -- The last n bytes.
   tail(s:STR, n:INT):STR pre n >= 0 and n <= s.size post result.size = n is return s.substring(s.size - n, n); end;

   -- The text with its small letters as capitals.
   upper(s:STR):STR post result.size = s.size is
      bytes ::= #ARRAY{CHAR}(s.size);
      loop bytes.set!(CHARS::upper(s.elt!)); end;
      return STR::of(bytes, s.size);
   end;

   -- The text with its capitals as small letters.
   lower(s:STR):STR post result.size = s.size is
      bytes ::= #ARRAY{CHAR}(s.size);
      loop bytes.set!(CHARS::lower(s.elt!)); end;
      return STR::of(bytes, s.size);
   end;

   -- The bytes from the last to the first.
   reverse(s:STR):STR post result.size = s.size is
      bytes ::= #ARRAY{CHAR}(s.size);
      loop bytes[(s.size - 1).downto!(0)] := s.elt!; end;
      return STR::of(bytes, s.size);
   end;

   -- The text n times.
   repeat(s:STR, n:INT):STR pre n >= 0 post result.size = n * s.size is
      bytes ::= #ARRAY{CHAR}(n * s.size);
      loop bytes.set!(s[0.upto!(n * s.size - 1) % s.size]); end;
      return STR::of(bytes, n * s.size);
   end;

   -- The text without the blanks at its two ends.
   trim(s:STR):STR post result.size <= s.size is
      start ::= 0; stop ::= s.size;
      loop while!(start < stop and CHARS::is_space(s[start])); start := start + 1; end;
      loop while!(start < stop and CHARS::is_space(s[stop - 1])); stop := stop - 1; end;
      return s.substring(start, stop - start);
   end;

   -- The text with blanks behind it, or in front of it, where it has less than n bytes.
   left(s:STR, n:INT):STR post result.size >= n is return s + repeat(" ", (n - s.size).max(0)); end;
   right(s:STR, n:INT):STR post result.size >= n is return repeat(" ", (n - s.size).max(0)) + s; end;

   -- Whether the bytes of a part stand at a place.
   is_at(s, part:STR, place:INT):BOOL is
      if place < 0 or place > s.size - part.size then return false; end;
      loop if part.elt! /= s[place] then return false; end; place := place + 1; end;
      return true;
   end;

   -- Whether the text begins with a part, ends with it, holds it or holds a byte.
   starts_with(s, part:STR):BOOL is return is_at(s, part, 0); end;
   ends_with(s, part:STR):BOOL is return is_at(s, part, s.size - part.size); end;
   contains(s, part:STR):BOOL is return search(s, part) >= 0; end;
   contains(s:STR, c:CHAR):BOOL is return search(s, c) >= 0; end;

   -- The first place of a part or a byte, of those not before the place `from`; -1 where there is none.
   search(s, part:STR):INT is return search(s, part, 0); end;
   search(s, part:STR, from:INT):INT pre from >= 0 post result = -1 or result >= from is
      loop place ::= from.upto!(s.size - part.size); if is_at(s, part, place) then return place; end; end;
      return -1;
   end;
   search(s:STR, c:CHAR):INT is return search(s, c, 0); end;
   search(s:STR, c:CHAR, from:INT):INT pre from >= 0 post result = -1 or (result >= from and s[result] = c) is
      loop place ::= from.upto!(s.size - 1); if s[place] = c then return place; end; end;
      return -1;
   end;

   -- How often a byte stands in the text.
   count(s:STR, c:CHAR):INT post result >= 0 and result <= s.size is
      count ::= 0;
      loop if s.elt! = c then count := count + 1; end; end;
      return count;
   end;

   -- The text with another one in the place of each part, from left to right.
   replace(s, part, by:STR):STR pre part.size > 0 is
      pieces ::= #FLIST{STR};
      loop pieces.push(split!(s, part)); end;
      return join(pieces, by);
   end;

   -- The pieces between the bytes c, or between the parts: one more than there are of these, and perhaps empty ones.
   split!(once s:STR, once c:CHAR):STR is
      start ::= 0;
      loop
         stop ::= search(s, c, start);
         while!(stop >= 0);
         yield s.substring(start, stop - start);
         start := stop + 1;
      end;
      yield s.substring(start, s.size - start);
   end;
   split!(once s, part:STR):STR pre part.size > 0 is
      start ::= 0;
      loop
         stop ::= search(s, part, start);
         while!(stop >= 0);
         yield s.substring(start, stop - start);
         start := stop + part.size;
      end;
      yield s.substring(start, s.size - start);
   end;

   -- The words: the longest pieces without blanks.
   words!(once s:STR):STR post result.size > 0 is
      start ::= 0;
      loop
         loop while!(start < s.size and CHARS::is_space(s[start])); start := start + 1; end;
         until!(start = s.size);
         stop ::= start;
         loop until!(stop = s.size or CHARS::is_space(s[stop])); stop := stop + 1; end;
         yield s.substring(start, stop - start);
         start := stop;
      end;
   end;

   -- The texts as they come, each but the first with `between` in front of it.
   separate!(once between:STR, s:STR):STR is
      yield s;
      loop yield between + s; end;
   end;

   -- The texts one after the other, with `between` between them.
   join(parts:ARRAY{STR}, between:STR):STR is return join(parts, parts.size, between); end;
   join(parts:FLIST{STR}, between:STR):STR is return join(parts.store, parts.size, between); end;

   -- The first n texts of an array. They are copied once, as a sum of texts would copy its front again and again.
   private join(parts:ARRAY{STR}, n:INT, between:STR):STR is
      bytes ::= #FLIST{CHAR};
      loop
         place ::= 0.upto!(n - 1);
         if place > 0 then loop bytes.push(between.elt!); end; end;
         loop bytes.push(parts[place].elt!); end;
      end;
      return STR::of(bytes.store, bytes.size);
   end;

   -- Whether the text is a whole number of INT: decimal digits, perhaps with a sign before them.
   is_int(s:STR):BOOL is value:INT; return is_number(s, out value); end;

   -- The number that a text is. A text that is none is raised, in a sentence.
   int(s:STR):INT is
      value:INT;
      if ~is_number(s, out value) then raise "not a whole number: " + s; end;
      return value;
   end;

   -- Whether the text is a number, and this number. It is made below 0, where there is one more number than above.
   private is_number(s:STR, out value:INT):BOOL is
      has_sign ::= s.size > 0 and (s[0] = '-' or s[0] = '+');
      first ::= 0;
      if has_sign then first := 1; end;
      if s.size = first then return false; end;
      loop
         c ::= s[first.upto!(s.size - 1)];
         if ~CHARS::is_digit(c) or value < (least + CHARS::digit_value(c)) / 10 then return false; end;
         value := value * 10 - CHARS::digit_value(c);
      end;
      if has_sign and s[0] = '-' then return true; end;
      if value = least then return false; end;
      value := -value;
      return true;
   end;

   -- The digits of a number to a base from 2 to 36, with `-` in front where it is below 0.
   based(i, base:INT):STR pre base >= 2 and base <= 36 is
      digits ::= #FLIST{CHAR};
      rest ::= i;
      loop digits.push(CHARS::digit((rest % base).abs)); rest := rest / base; until!(rest = 0); end;
      if i < 0 then digits.push('-'); end;
      return reverse(STR::of(digits.store, digits.size));
   end;

   -- The digits to the base 16, and to the base 2.
   hex(i:INT):STR is return based(i, 16); end;
   binary(i:INT):STR is return based(i, 2); end;
end;
"#;
