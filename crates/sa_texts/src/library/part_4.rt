//! Part 5 of the files of lib/.

/// The texts of this part, each behind the words that ask for it.
pub(crate) const FILES_4: [(&str, &str, &str, &str); 1] = [("fmt", "fmt.sa", "fmt.sa", FMT)];

const FMT: &str =
    r#"-- FMT: a text with fields, and values that are put into them. A field is `<>`, which takes the text of a value as it is, or `<`, signs `#`,
-- perhaps a point among them, and `>`: the text is put into as many places as stand between the two, a number at the right and others at
-- the left. A point rounds a number to as many digits as signs stand behind it. What is longer than its field isn't cut, and a `<` that
-- begins no field stands for itself.
--
--    #OUT + #FMT("<#####> costs <###.##>\n", "tea", #FMT("<>.<>", 3, 149));               -- tea   costs   3.15
--    #OUT + #FMT("<###>|<###>|<#>|", 7, -12, 345);                                        --   7|-12|345|
--    rows:ARRAY{$STR} := |1, 'a', true|; #OUT + #FMT("<>-<>-<>\n", rows);                 -- 1-a-true
class FMT < $STR is
   -- The text with its values.
   readonly attr str:STR;

   private include FLIST{CHAR} create->, pop->, aset->;

   -- A text with values for its fields, one to eight, or those of an array. Where there are more or fewer fields a text is raised.
   create(form:STR, a:$STR):SAME is return filled(form, |a|); end;
   create(form:STR, a, b:$STR):SAME is return filled(form, |a, b|); end;
   create(form:STR, a, b, c:$STR):SAME is return filled(form, |a, b, c|); end;
   create(form:STR, a, b, c, d:$STR):SAME is return filled(form, |a, b, c, d|); end;
   create(form:STR, a, b, c, d, e:$STR):SAME is return filled(form, |a, b, c, d, e|); end;
   create(form:STR, a, b, c, d, e, f:$STR):SAME is return filled(form, |a, b, c, d, e, f|); end;
   create(form:STR, a, b, c, d, e, f, g:$STR):SAME is return filled(form, |a, b, c, d, e, f, g|); end;
   create(form:STR, a, b, c, d, e, f, g, h:$STR):SAME is return filled(form, |a, b, c, d, e, f, g, h|); end;
   create(form:STR, values:ARRAY{$STR}):SAME is return filled(form, values); end;

   private filled(form:STR, values:ARRAY{$STR}):SAME is
      fmt ::= new;
      place ::= 0; used ::= 0;
      loop
         while!(place < form.size);
         stop ::= field_end(form, place);
         if stop < 0 then
            fmt.push(form[place]); place := place + 1;
         else
            if used = values.size then raise "more fields than values: " + form; end;
            fmt.put(values[used].str, form.substring(place + 1, stop - place - 1));
            used := used + 1; place := stop + 1;
         end;
      end;
      if used < values.size then raise "more values than fields: " + form; end;
      fmt.str := STR::of(fmt.store, fmt.size);
      return fmt;
   end;

   -- The place of the `>` of the field that begins at a place; -1 where none begins there.
   private field_end(form:STR, place:INT):INT is
      if form[place] /= '<' then return -1; end;
      points ::= 0; signs ::= 0;
      loop
         stop ::= (place + 1).upto!(form.size - 1);
         case form[stop]
         when '#' then signs := signs + 1;
         when '.' then points := points + 1;
         when '>' then if points = 0 or (points = 1 and signs > 0) then return stop; end; return -1;
         else return -1;
         end;
      end;
      return -1;
   end;

   -- Puts a value's text behind what is there, as what stands in its field says.
   private put(text, field:STR) is
      is_number ::= is_number(text);
      if is_number and point_of(field) < field.size then text := rounded(text, field.size - 1 - point_of(field)); end;
      if is_number then blanks(field.size - text.size); end;
      loop push(text.elt!); end;
      if ~is_number then blanks(field.size - text.size); end;
   end;

   private blanks(n:INT) is loop n.times!; push(' '); end; end;

   -- Whether a text is a number in digits: perhaps a sign, digits, and perhaps a point with digits behind it.
   private is_number(text:STR):BOOL is
      place ::= 0; point ::= point_of(text);
      if text.size > 0 and text[0] = '-' then place := 1; end;
      if point = place or point = text.size - 1 then return false; end;
      loop
         i ::= place.upto!(text.size - 1);
         if i /= point and (text[i] < '0' or text[i] > '9') then return false; end;
      end;
      return true;
   end;

   -- The place of the first point in a text; its size where there is none.
   private point_of(text:STR):INT is
      loop place ::= 0.upto!(text.size - 1); if text[place] = '.' then return place; end; end;
      return text.size;
   end;

   -- A number in digits rounded to n digits behind the point; what is in the middle goes away from 0. Nothing but zeros has no sign.
   private rounded(text:STR, n:INT):STR pre n >= 0 is
      first ::= 0; point ::= point_of(text);
      if text[0] = '-' then first := 1; end;
      digits ::= #FLIST{INT};
      loop digits.push(digit(text, first.upto!(point - 1))); end;
      loop digits.push(digit(text, (point + 1).upto!(point + n))); end;
      carry ::= digit(text, point + n + 1) / 5;
      is_zero ::= carry = 0;
      loop
         place ::= (digits.size - 1).downto!(0);
         if digits[place] > 0 then is_zero := false; end;
         digits[place] := digits[place] + carry;
         carry := digits[place] / 10;
         digits[place] := digits[place] % 10;
      end;
      sum ::= "";
      if first = 1 and ~is_zero then sum := "-"; end;
      if carry > 0 then sum := sum + carry; end;
      loop
         place ::= 0.upto!(digits.size - 1);
         if place = digits.size - n then sum := sum + "."; end;
         sum := sum + digits[place];
      end;
      return sum;
   end;

   -- The digit at a place of a text; 0 behind its end.
   private digit(text:STR, place:INT):INT is
      if place >= text.size then return 0; end;
      return text[place].int - '0'.int;
   end;
end;
"#;
